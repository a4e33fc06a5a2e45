//! Studies of alternatives: of a model with other numbers, and of two models.
//!
//! It promises that each alternative is the text but for its numbers, that its runs are those of a
//! study, and that differences are by pairs of these. It makes no run of its own (docs/planner.md).
#![tactic(auto)]

mod alternatives;
mod answering;
mod form;
mod study_point;
mod told;

pub use alternatives::{lone_point, models_of, points_by_words};
pub use answering::study_points;
pub use form::Form;
pub use study_point::StudyPoint;
pub use told::{point_of, put_block, put_table};
