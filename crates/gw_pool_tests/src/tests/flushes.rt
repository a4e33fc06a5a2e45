//! An answer that is written, and can't be flushed.

use gw_answers::{Request, answer_to};
use gw_console::{deliver, or_no_memory};
use gw_samples::{THREE_BLOCKS, THREE_BLOCKS_REPORT};
use gw_streams::Output;
use std::alloc::Global;
use std::io;
use std::io::{ErrorKind, Write};

/// Takes one byte a call, and can't be flushed.
#[derive(Drop)]
struct Unflushed {
    held: Vec<u8>,
}

impl Write for Unflushed {
    fn write(&mut self, buf: &[u8]) -> io::Result<usize> {
        match buf.first() {
            Some(byte) => {
                self.held.push(*byte)?;
                Ok(1)
            }
            None => Ok(0),
        }
    }

    fn flush(&mut self) -> io::Result<()> {
        Err(io::Error::from(ErrorKind::Other))
    }
}

/// Whether the report of three blocks is written whole to a writer that can't be flushed, and the status tells that a call failed.
fn is_told(alloc: Global) -> bool {
    let mut writer = Output::new(Unflushed {
        held: Vec::new(alloc),
    });
    let answer = answer_to(alloc, Request::Run { seed: 0, count: 0 }, THREE_BLOCKS);
    let status = deliver(&mut writer, or_no_memory(answer));
    writer.into_inner().held.as_slice() == THREE_BLOCKS_REPORT && status == 3
}

#[test]
fn report_that_cannot_be_flushed_is_told(rt: HostRuntime) {
    assert!(rt; is_told(rt.alloc()));
}
