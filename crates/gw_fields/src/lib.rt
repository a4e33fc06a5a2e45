//! Fields of a format, as definitions: how numbers, counts, optional values and lists stand in
//! bytes, each in one way.
//!
//! It knows of no format: what an object consists of is for `gw_object` to say. The bodies that put
//! and read fields are those of `gw_field_bytes`.
#![tactic(auto)]

pub mod codes;
mod error;
mod items;
mod keys;

pub use error::{Bad, ReadError, fault};
pub use items::Items;
pub use keys::Keyed;
