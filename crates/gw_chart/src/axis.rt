//! The upright axis of a plot.

use std::marker::Model;

/// The numbers of an upright axis: one to ten steps of equal width, of which some lie below 0.
#[derive(Clone, Copy)]
pub(crate) struct Axis {
    /// The step.
    pub(crate) step: u128,
    /// How many steps lie below 0.
    pub(crate) below: u64,
    /// How many there are.
    pub(crate) count: u64,
}

impl Model for Axis {
    ghost use Rattle.gw_chart.specs.Axes.{Levels, AreFew};

    ghost Value = { Levels };

    ghost view = { λ a. record { step = a.step; below = a.below; count = a.count } };

    ghost inverse = { λ l. record { step = l.step; below = l.below; count = l.count } };

    ghost invariant = { λ a. AreFew (record { step = a.step; below = a.below; count = a.count }) };
}
