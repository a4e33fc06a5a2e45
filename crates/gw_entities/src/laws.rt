//! The laws of entities, each as the contract of a function that does nothing.

ghost use Rattle.gw_entities.specs.Laws.{
  OnlyIdleIsSeized,
  OwnersAreKept,
  OnlyTheOwnerReleases,
  EnteringStaysWithin,
  LeavingStaysWithin,
  LeavingGivesBack,
  UnitsAreConserved,
  AveragesAreCut,
};
ghost use Rattle.gw_entities.specs.Tabulation.{ValuesBelongToTheirClass};

/// A facility has one owner at most: only an idle one is seized, an owned one stays its owner's, and only its owner
/// releases it.
pub fn facilities_have_one_owner()
    ensures seized { OnlyIdleIsSeized }
    ensures kept { OwnersAreKept }
    ensures released { OnlyTheOwnerReleases }
{}

/// What is inside a storage stays within its capacity.
pub fn storages_stay_within_capacity()
    ensures entering { EnteringStaysWithin }
    ensures leaving { LeavingStaysWithin }
{}

/// No unit is lost: those that came in went out or are inside.
#[tactic(auto, using(crate::proofs::Histories::units_are_conserved))]
pub fn units_are_conserved()
    ensures back { LeavingGivesBack }
    ensures conserved { UnitsAreConserved }
{}

/// An average is cut to thousandths, and never rounded up.
#[tactic(auto, using(crate::proofs::Averages::averages_are_cut))]
pub fn averages_are_cut()
    ensures { AveragesAreCut }
{}

/// A value is counted in the class between whose borders it lies: above that of the class before, and at most its own.
#[tactic(auto, using(crate::proofs::Classes::values_belong_to_their_class))]
pub fn values_belong_to_their_class()
    ensures { ValuesBelongToTheirClass }
{}
