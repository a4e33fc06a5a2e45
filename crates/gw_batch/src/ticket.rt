//! What became of an entry.

use crate::waiting::Line;
use gw_answers::Refusal;
use gw_jobs::Pass;

/// What became of an entry of a batch.
#[derive(Drop)]
pub(crate) enum Ticket {
    /// Its job was submitted.
    Submitted(Pass),
    /// The object was refused.
    Refused(Refusal),
    /// It ended the reading.
    Broken(Line),
}
