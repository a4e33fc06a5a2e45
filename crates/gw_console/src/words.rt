//! The words of the command line.

use crate::fault::ProgramFault;
use std::env::{Env, args};
use std::io::ErrorKind;

/// The words behind the program's own name. Where one of them isn't text there are none, which are wrong words to each program.
/// `Err` where memory runs out.
pub fn words_given<R: Env + AllocGlobal>(rt: &R) -> Result<Vec<String>, ProgramFault> {
    match args(rt) {
        Ok(mut words) => {
            let _ = words.next();
            match words.collect(rt.alloc()) {
                Ok(words) => Ok(words),
                Err(_) => Err(ProgramFault::Memory),
            }
        }
        Err(error) if error.kind() == ErrorKind::OutOfMemory => Err(ProgramFault::Memory),
        Err(_) => Ok(Vec::new(rt.alloc())),
    }
}
