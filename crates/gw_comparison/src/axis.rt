//! An upright axis.

ghost use Rattle.std.specs.Prelude.{◌≤◌, ◌<◌, ◌^◌};

/// An upright axis: 1 to 10 equal steps, of which some lie below 0.
#[derive(Clone, Copy)]
pub(crate) struct Frame {
    /// The step, in millionths.
    pub(crate) step: u128,
    /// How many steps lie below 0.
    pub(crate) below: u64,
    /// How many there are.
    pub(crate) steps: u64,
    ghost step_range: { (0 < step) × (step ≤ 2 ^ 70) },
    ghost below_range: { below ≤ 10 },
    ghost steps_range: { (0 < steps) × (steps ≤ 10) },
}
