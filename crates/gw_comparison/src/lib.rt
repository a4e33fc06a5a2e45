//! Points of a study beside one another: differences by pairs of runs, CSV, and pictures.
//!
//! It promises what the differences of a point to another say, by the definitions of
//! `gw_statistics`, the records of CSV, and the places in a picture. It makes no run: it is given
//! what runs say (docs/planner.md).
#![tactic(auto)]

mod accounts;
mod axis;
mod differences;
mod frame;
mod marks;
mod picture;
mod point;
mod sheet;

pub use accounts::column_of;
pub use differences::put_differences;
pub use picture::put_picture;
pub use point::{Column, Point};
pub use sheet::put_sheet;
