//! The names of a model text, their numbers, and which uses of them are refused.
//!
//! It promises entities their places in order of first sight, and named parameters the lowest
//! numbers that the text doesn't use; a label stands for its last block, another name for its last
//! declaration. It promises which uses are refused, at which line, and that a ledger keeps the
//! first refusal.
#![tactic(auto)]

pub mod codes;
mod declarations;
mod entities;
mod equs;
mod judgement;
mod known;
mod labels;
pub mod laws;
mod ledger;
mod maps;
mod names;
mod parameters;
mod places;
mod sights;

pub use declarations::is_equ;
pub use entities::{ByKind, Declarations, EntityNames};
pub use gw_name_uses::{Use, put_uses, put_uses_of_operand, put_uses_of_procedure};
pub use judgement::check_uses;
pub use known::{Known, known_names};
pub use ledger::{Ledger, Noted};
pub use maps::{set, set_label, value_of_name};
pub use names::Names;
pub use sights::Sighted;
