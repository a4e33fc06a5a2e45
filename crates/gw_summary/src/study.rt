//! What the rows of one study have in common.

ghost use Rattle.std.specs.Prelude.{◌≤◌, ◌^◌};

use gw_rows::Origin;

/// What the rows of one study have in common.
#[derive(Drop)]
pub(crate) struct Study {
    /// Of what the first row's run is one.
    pub(crate) origin: Origin,
    /// The names before the numbers of its points.
    pub(crate) names: Vec<Vec<u8>>,
    ghost in_range: { origin.count ≤ 2 ^ 40 },
}
