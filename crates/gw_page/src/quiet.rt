//! A runtime that says nothing.

use std::fmt::Display;
use std::io;
use std::io::Eprint;
use std::marker::PhantomData;
use std::thread::Threads;

/// The leave to start threads that another runtime has, but silent on standard error: what is written there may reach the peer,
/// whose socket may be all that there is.
#[derive(Drop)]
pub(crate) struct Quiet<T> {
    of: PhantomData<T>,
}

impl<T> Quiet<T> {
    /// That of a runtime.
    pub(crate) fn of(_rt: &T) -> Quiet<T> {
        Quiet { of: PhantomData }
    }
}

// It has nothing that threads could share.
unsafe impl<T> Sync for Quiet<T> {}

impl<T: Threads> Threads for Quiet<T> {}

impl<T> Eprint for Quiet<T> {
    fn eprint<D: Display + Drop>(&self, value: D) -> io::Result<()> {
        drop(value);
        Ok(())
    }

    fn eprintln<D: Display + Drop>(&self, value: D) -> io::Result<()> {
        drop(value);
        Ok(())
    }
}
