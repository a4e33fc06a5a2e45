//! The program for browsers: the page of planners over standard input and output, one connection a
//! process.
//!
//! It hands both to `gw_page`. Who listens is another program: systemd's socket unit, inetd or
//! socat (docs/page.md).
#![tactic(auto)]

use gw_answers::status::{ENDED, FAILED, NO_MEMORY};
use gw_page::serve_page;
use std::hash::RandomState;
use std::io;
use std::io::BufWriter;
use std::process::ExitCode;

/// Answers one connection. It ends with status 0 where the connection is done, 3 where a read or a write failed, and 4 where memory
/// ran out before there was a connection.
fn main(rt: HostRuntime) -> ExitCode {
    let alloc = rt.alloc();
    let Ok(keys) = RandomState::new(&rt) else {
        return ExitCode::from(NO_MEMORY);
    };
    let Ok(mut writer) = BufWriter::new(alloc, io::writer(&rt)) else {
        return ExitCode::from(NO_MEMORY);
    };
    match serve_page(&rt, alloc, keys, &mut rt.reader(), &mut writer) {
        Ok(()) => ExitCode::from(ENDED),
        Err(_) => ExitCode::from(FAILED),
    }
}
