//! A law of studies on many machines, as the contract of a function that does nothing.

ghost use Rattle.gw_planner.specs.Laws.{SummariesAreStudies};

/// What is told of all rows of a model's runs, in any order and each as often as may be, is the study of as many runs.
pub fn summaries_are_studies()
    ensures { SummariesAreStudies }
{}
