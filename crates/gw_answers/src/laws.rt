//! The laws of answers, as the contract of a function that does nothing.

ghost use Rattle.gw_answers.specs.Laws.{SomeAnswer, OneAnswer};

/// Bytes, a seed and a count have exactly one text and status, so that what `run` has to write is a function of them.
#[tactic(auto, using(crate::proofs::SomeAnswers::some_answer, crate::proofs::OneAnswers::one_answer))]
pub fn answers_are_determined()
    ensures some { SomeAnswer }
    ensures one { OneAnswer }
{}
