//! The laws of what the verifier checks, as functions with nothing to do, whose clauses are the laws.

ghost use Rattle.gw_rules.specs.KindsLaws.{KindsPassAtEachPlace};
ghost use Rattle.gw_rules.specs.PlusLaws.{AnswersAreDerived, CostBounds, DerivedIsAnswered, HasOutcome, OneOutcome, OutcomesAreEvaluated, OutcomesDependOnWhatIsKept};
ghost use Rattle.gw_rules.specs.OneHeight.{PlusPassesByHeights};
ghost use Rattle.gw_rules.specs.FlowLaws.{FlowPassesAtEachBlock, FitsIsDecided, FitsItself, FitsOn, FittingStatesPass};
ghost use Rattle.gw_rules.specs.WeightsLaws.{WeightsPassWhereWeighted};
ghost use Rattle.gw_rules.specs.AcceptedLaws.{CheckedWhereAllPass, AcceptedWhereCheckedAndWeighted};

/// Kinds are accepted exactly where it is so at each place (ours: docs/refusals.md):
///
/// - an operand that is evaluated, for an entity or at a block, names an entity that is there and of the right kind, a
///   procedure that is there and takes no arguments, or a block that is there;
/// - the argument of a function is no function's value, and neither is half the range of a time;
/// - an instruction reads what is there and of the right kind, and no function whose argument is drawn; it calls a
///   procedure that is there, and its numbers are in their ranges;
/// - each block of a return row is there and calls a subroutine;
/// - a row of the state table names facilities as owned, storages and queues as holding units, and return rows that are
///   there;
/// - at each block the entity that it names is there and of the right kind, each block to which a transaction goes on, is
///   sent or comes back is there and no GENERATE, and constants are in the ranges of their fields.
pub fn kinds_pass_at_each_place()
    ensures { KindsPassAtEachPlace }
{}

/// From one place at most one outcome is derived, after as many instructions (ours: docs/plus-code.md).
#[tactic(auto, using(crate::proofs::PlusTheorems::one_outcome_law))]
pub fn one_outcome()
    ensures { OneOutcome }
{}

/// The outcome within a number of instructions is a function that answers just what is derived: each answer is derived,
/// and what is derived is answered within as many instructions, or more (ours: docs/plus-code.md).
#[tactic(auto, using(crate::proofs::Within::answers_are_derived, crate::proofs::Within::derived_is_answered))]
pub fn answers_are_what_is_derived()
    ensures answers { AnswersAreDerived }
    ensures derived { DerivedIsAnswered }
{}

/// The outcome of a procedure depends on nothing but the values that are kept: those of parameters, of the clock, the
/// termination count and the transaction, and of entities and blocks (ours: docs/plus-code.md).
#[tactic(auto, using(crate::proofs::Within::outcomes_depend_on_what_is_kept))]
pub fn outcomes_depend_on_what_is_kept()
    ensures { OutcomesDependOnWhatIsKept }
{}

/// Code that passes its checks never gets stuck: an activation that has its arguments, and the parameters that its
/// procedure needs, has an outcome, after at most as many instructions as the procedure costs (ours: docs/plus-code.md).
#[tactic(auto, using(crate::proofs::PlusTheorems::has_outcome_law, crate::proofs::PlusTheorems::cost_bounds_law))]
pub fn accepted_code_never_gets_stuck()
    ensures outcome { HasOutcome }
    ensures cost { CostBounds }
{}

/// So in an object whose code passes each procedure without arguments has its one outcome, where the parameters that it
/// needs are set: the one that PLUS evaluation derives (ours: docs/plus-code.md).
pub fn outcomes_are_evaluated()
    ensures { OutcomesAreEvaluated }
{}

/// PLUS code passes its checks exactly where, in each procedure, the stack has one height before each instruction, such that
/// each rule holds, an earlier instruction leads to each but the first, and the procedure costs at most 10^9 (ours:
/// docs/plus-code.md).
#[tactic(auto, using(crate::proofs::OneHeight::plus_passes_by_heights))]
pub fn plus_passes_by_heights()
    ensures { PlusPassesByHeights }
{}

/// Flow passes exactly where each GENERATE has a row, and a transaction in the state of a block's row may pass the block:
/// each rule holds, and where each edge leads there is a row that the edge's state fits (ours: docs/refusals.md).
pub fn flow_passes_at_each_block()
    ensures { FlowPassesAtEachBlock }
{}

/// The test of fitting says yes exactly of a state that fits.
pub fn fits_is_decided()
    ensures { FitsIsDecided }
{}

/// A state fits itself, and what fits a row fits what the row fits.
pub fn states_fit()
    ensures itself { FitsItself }
    ensures on { FitsOn }
{}

/// A transaction that fits a row may pass each block that the row may pass, but those that forbid what the row needn't know
/// of: GENERATE, where nothing may be held or set, and ASSIGN by addition or subtraction, whose parameter may be no return.
pub fn fitting_states_pass()
    ensures { FittingStatesPass }
{}

/// Weights of an object pass exactly where it is weighted: each block and each user chain weighs 1 or more, the
/// arrivals of each GENERATE are bounded in a clock moment, and each block with a row of the state table pays for an entry
/// and for what follows from it at once (ours: docs/weights.md).
pub fn weights_pass_where_weighted()
    ensures { WeightsPassWhereWeighted }
{}

/// An object is checked exactly where kinds pass, PLUS code passes and flow passes; what that says of each block and of each
/// procedure are laws of `gw_kinds`, `gw_code_flow` and `gw_flow` (ours: docs/refusals.md).
pub fn checked_where_all_pass()
    ensures { CheckedWhereAllPass }
{}

/// An object is accepted exactly where it is checked and its weights pass; what that says of each block is a law of
/// `gw_weights` (ours: docs/refusals.md).
pub fn accepted_where_checked_and_weighted()
    ensures { AcceptedWhereCheckedAndWeighted }
{}
