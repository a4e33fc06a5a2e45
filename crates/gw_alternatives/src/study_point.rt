//! A point of a study.

ghost use Rattle.std.specs.Prelude.{◌≡◌};
ghost use Rattle.gw_answers.specs.declared.answer.TheConstants.{BUDGET};

use gw_scan::Spec;

/// A point of a study, which may be one of two models: what it is called, and its job.
#[derive(Drop)]
pub struct StudyPoint {
    /// What it is called, as `NURSES=2`.
    pub name: Vec<u8>,
    /// Its job, with the model's own seeds.
    pub spec: Spec,
    ghost budget: { spec.budget ≡ BUDGET },
}
