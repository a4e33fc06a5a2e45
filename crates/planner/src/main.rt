//! The program for people, at their desks: it explains, shows, runs and studies models.
//!
//! It promises that each command answers what its question asks of the input, or of its front where
//! that is too long, and that other words give the usage. It reads and delivers; the answers are
//! those of `gw_planner` and `gw_summary` (docs/planner.md).
#![tactic(auto)]

pub mod help;
pub mod program;
pub mod rows;

use gw_console::{deliver, words_given};
use gw_streams::{Input, Output};
use program::dispatch;
use std::io;
use std::process::ExitCode;

/// The program over standard input and output. Words that aren't text are wrong words.
fn main(rt: HostRuntime) -> ExitCode {
    let mut reader = Input::new(rt.reader());
    let mut writer = Output::new(io::writer(&rt));
    let status = match words_given(&rt) {
        Ok(words) => dispatch(&rt, rt.alloc(), &words, &mut reader, &mut writer),
        Err(fault) => deliver(&mut writer, Err(fault)),
    };
    ExitCode::from(status)
}
