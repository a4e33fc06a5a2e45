//! The law of refusals for weights, as a function with nothing to do, whose clause is the law.

ghost use Rattle.gw_assemble.specs.Laws.{NoTableAndWeightsPass};

/// Where no weights without slopes pass with the assembler's state table, no state table and no weights without slopes pass at
/// all, unless a parameter keeps the return of a TRANSFER to a subroutine and is added to or subtracted from by an ASSIGN
/// (ours: docs/weights.md).
pub fn no_table_and_weights_pass()
    ensures { NoTableAndWeightsPass }
{}
