//! Readers and writers of memory, and such as fail.

use gw_streams::{Input, Output};
use std::alloc::Global;
use std::io;
use std::io::{ErrorKind, Read, Write};

/// Is interrupted at each read, takes no byte, and can't be flushed.
#[derive(Drop)]
struct Broken;

impl Read for Broken {
    fn read(&mut self, _: &mut [u8]) -> io::Result<usize> {
        Err(io::Error::from(ErrorKind::Interrupted))
    }
}

impl Write for Broken {
    fn write(&mut self, _: &[u8]) -> io::Result<usize> {
        Ok(0)
    }

    fn flush(&mut self) -> io::Result<()> {
        Err(io::Error::from(ErrorKind::Other))
    }
}

/// The first two of three bytes, if the third is left and no call failed.
fn first_two() -> Option<[u8; 2]> {
    let mut input = Input::new(b"abc".as_slice());
    let mut buffer = [0; 2];
    let count = input.read(&mut buffer).ok()?;
    let failed = input.has_failed();
    let left = input.into_inner().len();
    (count == 2 && !failed && left == 1).then_some(buffer)
}

/// How many bytes a writer holds after a write of three and a flush, if they waited for it and no call failed.
fn held_after_flush(alloc: Global) -> io::Result<Option<usize>> {
    let mut output = Output::new(Vec::new(alloc));
    output.write(b"abc")?;
    let waited = output.needs_flush();
    output.flush()?;
    let waits = output.needs_flush();
    let failed = output.has_failed();
    let held = output.into_inner().len();
    Ok((waited && !waits && !failed).then_some(held))
}

/// Whether a read, a write and a flush of what is broken each answer an error and leave the mark.
fn failures_are_marked() -> [bool; 3] {
    let mut input = Input::new(Broken);
    let read = input.read(&mut [0]).is_err();
    let mut output = Output::new(Broken);
    let written = output.write(b"a").is_err();
    let mut unwritten = Output::new(Broken);
    let flushed = unwritten.flush().is_err();
    [
        read && input.has_failed(),
        written && output.has_failed(),
        flushed && unwritten.has_failed(),
    ]
}

#[test]
fn a_reader_gives_its_bytes(rt: HostRuntime) {
    assert_eq!(rt; first_two(), Some(*b"ab"));
}

#[test]
fn a_writer_holds_what_it_took(rt: HostRuntime) {
    assert_eq!(rt; held_after_flush(rt.alloc()).ok().flatten(), Some(3));
}

#[test]
fn failures_leave_a_mark(rt: HostRuntime) {
    assert_eq!(rt; failures_are_marked(), [true; 3]);
}
