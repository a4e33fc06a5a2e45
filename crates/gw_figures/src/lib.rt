//! The figures of a model with their names, and their values in a window of a run.
//!
//! It promises the names, in the order of the model's parts, and what each figure is in a window,
//! in millionths, by the exact numbers of the states with which that begins and ends. It makes no
//! step (docs/planner.md).
#![tactic(auto)]

mod classes;
mod entity_labels;
mod entity_values;
mod figure;
mod labels;
pub mod laws;
mod model_values;
mod percentiles;
mod quotients;
mod run;
mod trends;
mod window;

pub use figure::Figure;
pub use labels::figures;
pub use model_values::values;
pub use percentiles::upper_limit;
pub use run::{Overdraw, Run};
pub use trends::{changes, difference, value_at};
pub use window::Window;
