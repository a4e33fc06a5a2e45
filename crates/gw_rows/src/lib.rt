//! A run as a row of CSV, exactly, and rows read again; a refusal as a row.
//!
//! It promises that a line which is taken for a row is written so, byte for byte, from what it was
//! taken for, and that rows with one text are of one run. A row is a function of the run alone; it
//! knows of no order of rows (docs/many-machines.md).
#![tactic(auto)]

mod amounts;
mod digest;
mod ends;
mod header;
pub mod laws;
mod origin;
mod overdraws;
mod parts;
mod reading;
mod record;
mod refusal;
mod row;

pub use digest::digest_of;
pub use header::{figures_in, put_header};
pub use origin::Origin;
pub use reading::row_in;
pub use refusal::{Refused, is_refusal_header, put_refusal, refused_in};
pub use row::{Row, put_row};
