//! Laws of figures. Each is the contract of a function that does nothing.

ghost use Rattle.gw_figures.specs.Laws.{ValuesAreOfLabels};
ghost use Rattle.gw_figures.specs.Values.{PercentilesAreOfFirstClasses};

/// A percentile is the upper limit of the first class up to which so many of a hundred values lie.
#[tactic(auto, using(crate::proofs::Reaching::percentiles_are_of_first_classes))]
pub fn percentiles_are_of_first_classes()
    ensures { PercentilesAreOfFirstClasses }
{}

/// A window has a value for each figure.
pub fn values_are_of_labels()
    ensures { ValuesAreOfLabels }
{}
