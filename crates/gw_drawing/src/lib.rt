//! What pictures are drawn with: numbers at axes, places, and pieces of SVG.
//!
//! It promises scales and places by their definitions, names that are escaped, and numbers in
//! groups of three digits. It knows of no figure and no run (docs/planner.md).
#![tactic(auto)]

pub mod numbers;
pub mod scale;
pub mod text;
