//! Laws of the definitions that the calls of this crate meet. Each is a function with nothing to do.

ghost use Rattle.gw_num.specs.Arithmetic.{DivisionLaw, PowerLaw};
ghost use Rattle.gw_num.specs.Generator.{StaysSeed, TimesLieWithin};

/// `a = (a \ b) # b + a @ b` where `b` isn't 0. The remainder `a @ b` is smaller than `b`, and the quotient is rounded
/// toward zero.
pub fn quotient_and_remainder()
    ensures { DivisionLaw }
{}

/// `a ^ 0` is 1, and `a ^ (n + 1)` is `a ^ n # a`.
#[tactic(auto, using(crate::proofs::Powers::power_law))]
pub fn power_has_its_factors()
    ensures { PowerLaw }
{}

/// From a number of 1 to 2147483646 the generator goes to such a number.
#[tactic(auto, using(crate::proofs::Draws::stays_seed))]
pub fn streams_stay_in_range()
    ensures { StaysSeed }
{}

/// A time drawn with a mean and a half-range lies no further from the mean than the half-range.
#[tactic(auto, using(crate::proofs::Draws::times_lie_within))]
pub fn drawn_times_lie_within()
    ensures { TimesLieWithin }
{}
