//! What repeated runs say of one figure: its mean, how sure that is, and differences by pairs of
//! runs.
//!
//! It promises means and half-widths by their definitions, in whole numbers of one unit, as
//! millionths. It knows of no model (docs/planner.md).
#![tactic(auto)]

mod confidence;
mod pairs;
mod quantiles;
mod rounding;
mod summary;
mod sums;
mod telling;

pub use pairs::differences;
pub use quantiles::{QUANTILES, quantile, runs_to_halve};
pub use rounding::{nearest, nearest_of};
pub use summary::{MOST_VALUES, Summary, summarize};
pub use telling::{put_told, told_half_width};
