//! Transactions as members of lists: their handles, and what a list means that is kept in an order.
//!
//! It says where a newcomer joins a list, who is due, who is woken, and what a change of one list
//! makes of several. Of a transaction it has a handle (`Tx`: a place in the slab, and a number),
//! with a priority or a time, and no other code.
#![tactic(auto)]

mod tx;

/// The answer where there was no memory.
pub use std::alloc::AllocError as Memory;
pub use tx::{Event, MOST, Member, Tx};
