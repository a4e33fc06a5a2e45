//! What programs have in common: reading all of an input, delivering an answer, and statuses.
//!
//! It promises what a status tells of reads and writes, and that an answer is written whole, or a
//! front of it. It knows of no command (docs/program.md).
#![tactic(auto)]

mod delivering;
mod fault;
mod input;
mod output;
mod words;

pub use delivering::{deliver, or_no_memory, write_and_end};
pub use fault::ProgramFault;
pub use input::{read_front, read_input};
pub use output::write_text;
pub use words::words_given;
