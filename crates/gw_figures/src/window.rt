//! A window of a run.

ghost use Rattle.std.specs.Prelude.{◌≡◌};
ghost use Rattle.gw_figures.specs.Windows as model;

use gw_report::Figures;

/// A window of a run: the figures of the states with which it begins and ends.
#[derive(Clone, Copy)]
pub struct Window<'a> {
    /// Whether it is the whole run, so that the greatest content is told.
    pub whole: bool,
    /// The figures of its first state.
    pub start: &'a Figures,
    /// The figures of its last state.
    pub end: &'a Figures,
}

/// How many clock units pass in a window.
pub(crate) fn span_length(window: &Window<'_>) -> u64
    ensures { result ≡ model.span_length (model.span_of window.now) }
{
    let before = window.start.clock().unsigned_abs();
    window.end.clock().unsigned_abs().saturating_sub(before)
}
