//! What holds of ledgers and of the numbers of names.

ghost use Rattle.gw_names.specs.Laws as model;

/// What a ledger keeps of refusals is the first of them.
#[tactic(auto, using(crate::proofs::Firsts::first_kept))]
pub fn ledger_keeps_the_first()
    ensures { model.LedgerKeepsTheFirst }
{}

/// Two entities never share a number.
#[tactic(auto, using(crate::proofs::Owning::entities_own))]
pub fn entities_have_their_own()
    ensures { model.EntitiesHaveTheirOwn }
{}

/// The number of a named parameter is from 1 to 64, and the text doesn't use it.
pub fn parameters_are_free()
    ensures { model.ParametersAreFree }
{}

/// Two named parameters never share a number.
#[tactic(auto, using(crate::proofs::Owning::parameters_own))]
pub fn parameters_have_their_own()
    ensures { model.ParametersHaveTheirOwn }
{}

/// Where all names are known, the uses that are refused are those of the text.
#[tactic(auto, using(crate::proofs::Knowing::refusals_are))]
pub fn refusals_are_those_of_the_text()
    ensures { model.RefusalsAreThoseOfTheText }
{}
