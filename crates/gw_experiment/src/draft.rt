//! What comment lines ask for so far.

ghost use Rattle.std.specs.Prelude.{◌≤◌, IfSome};
ghost use Rattle.std.proofs.Props.{props};

use crate::fault::ExperimentFault;

/// What was read so far; a number is none until its line was there.
#[derive(Drop)]
pub(crate) struct Draft {
    /// Words as `NURSES=2,3`.
    pub(crate) parameters: Vec<Vec<u8>>,
    /// How many runs each point has.
    pub(crate) runs: Option<u64>,
    /// The termination count.
    pub(crate) count: Option<u64>,
    /// How many terminations are counted before the window begins.
    pub(crate) from: Option<u64>,
    ghost few: { IfSome runs (λ n. (1 ≤ n) × (n ≤ 512)) } by { Prim.hlevel props },
}

/// Why a line isn't taken.
#[derive(Drop)]
pub(crate) enum Refused {
    /// It asks for nothing, for this reason.
    Fault(ExperimentFault),
    /// Memory ran out.
    Memory,
}
