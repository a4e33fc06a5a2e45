//! Which part of a run is shown.

ghost use Rattle.std.specs.Prelude.{◌≡◌, ◌≤◌, ◌<◌};
ghost use Rattle.gw_chart.specs.Windows as model;

use gw_answers::Time;
use gw_drawing::numbers::part_of_length;

/// From which clock to which a run is shown, both in clock units; of a run that ends before, up to its end.
#[derive(Clone, Copy, PartialEq, Eq)]
pub struct Window {
    /// The first clock.
    pub from: u64,
    /// The last clock.
    pub to: u64,
}

/// The part of a window that a run has, whose end is at a clock.
pub(crate) fn clip(window: Window, end: Time) -> Window
    ensures { result ≡ model.clip window end.0 }
{
    let end = end.0.unsigned_abs();
    Window {
        from: window.from.min(end),
        to: window.to.min(end),
    }
}

/// The clock of a moment, by its number from 0 to 499: the first is where a window begins, the last where it ends.
pub(crate) fn moment(window: Window, number: u64) -> Time
    requires { number ≤ 499 }
    ensures { result.0 ≡ model.moment window number }
{
    let passed = part_of_length(window.to.saturating_sub(window.from), number, 499);
    let clock = (u128::from(window.from) + u128::from(passed)).min(i64::MAX as u128);
    Time(clock as i64)
}

/// How long the clock axis is, in clock units: at least 1.
pub(crate) fn span_of(window: Window) -> u64
    ensures value { result ≡ model.span_of window }
    ensures some { 0 < result }
{
    window.to.saturating_sub(window.from).max(1)
}
