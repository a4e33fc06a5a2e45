//! Rows worked out by hand, layer by layer, and what they are made of.

mod fields;
mod flow;
mod kinds;
mod numbers;
mod streams;
