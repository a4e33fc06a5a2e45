//! The scale of an axis.

use std::marker::Model;

/// The numbers of an upright axis: 0, and up to five more at equal steps.
#[derive(Clone, Copy)]
pub struct Scale {
    /// The step.
    pub(crate) step: u128,
    /// How many there are above 0.
    pub(crate) count: u64,
}

impl Model for Scale {
    ghost use Rattle.gw_drawing.specs.Steps.{Steps, AreFew};

    ghost Value = { Steps };

    ghost view = { λ s. record { step = s.step; count = s.count } };

    ghost inverse = { λ s. record { step = s.step; count = s.count } };

    ghost invariant = { λ s. AreFew (record { step = s.step; count = s.count }) };
}
