//! A law of studies, as the contract of a function that does nothing.

ghost use Rattle.gw_study.specs.Streams.{EntriesStandBehind};

/// What a run may have drawn is bounded by the entries of the blocks that draw: where they are looked for they stand.
#[tactic(auto, using(crate::proofs::Places::entries_stand_behind))]
pub fn entries_stand_behind()
    ensures { EntriesStandBehind }
{}
