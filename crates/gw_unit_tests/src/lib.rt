//! The tests of numbers, fields, readers and writers, chains and transactions, kinds and flow.
//!
//! They have values worked out by hand, of what no run of a model shows: that both bodies of a
//! chain answer alike, and that chains with as many members as may live don't take long. What
//! objects, weights, the verifier, entities and PLUS code do is in the cases (docs/cases.md).
#![tactic(auto)]

#[cfg(test)]
mod bodies;
#[cfg(test)]
mod chains;
#[cfg(test)]
mod parameters;
#[cfg(test)]
mod tests;
#[cfg(test)]
mod transactions;
