//! The program for machines: it assembles, checks and runs queueing models in GPSS World.
//!
//! It promises that what `run` writes is a function of the bytes that it reads and of its two
//! words, and that what `pool` writes are the parts of the batch that it reads. It has words and
//! framing; the answers are those of `gw_answers` and `gw_batch` (docs/program.md).
#![tactic(auto)]

pub mod framing;
pub mod program;
pub mod words;

use gw_console::{deliver, words_given};
use gw_streams::{Input, Output};
use program::dispatch;
use std::io;
use std::io::IsTerminal;
use std::process::ExitCode;

/// The program over standard input and output. Words that aren't text are wrong words.
fn main(rt: HostRuntime) -> ExitCode {
    let mut reader = Input::new(rt.reader());
    let mut writer = Output::new(io::writer(&rt));
    let is_terminal = rt.stderr().is_terminal();
    let status = match words_given(&rt) {
        Ok(words) => dispatch(
            &rt,
            rt.alloc(),
            &words,
            is_terminal,
            &mut reader,
            &mut writer,
        ),
        Err(fault) => deliver(&mut writer, Err(fault)),
    };
    ExitCode::from(status)
}
