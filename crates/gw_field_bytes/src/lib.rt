//! Fields of a format, put into bytes and read from them as `gw_fields` defines them.
//!
//! It promises that each field is put as it is spelled, into whatever takes bytes (`Receiver`: a
//! vector keeps them, a room counts them), and read as its reading says: the value and the bytes
//! after it, or the first fault. It knows of no format.
#![tactic(auto)]

mod choices;
mod keys;
mod lists;
mod numbers;
mod receivers;
mod spelled;

pub use choices::{ByByte, OneByte};
pub use keys::keys_ascend;
pub use lists::{
    Anywhere, Elements, Front, Plain, Put, Reading, put_elements, put_listed, read_elements,
    read_listed,
};
pub use numbers::{
    IfAny, put_count, read_count, read_ranged_u8, read_ranged_u16, read_ranged_u32, read_ranged_u64,
};
pub use receivers::{Receiver, Room};
pub use spelled::{NumberFormat, Spelled, put_behind};
/// The answer where there was no memory.
pub use std::alloc::AllocError as Memory;
