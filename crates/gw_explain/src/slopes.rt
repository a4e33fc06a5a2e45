//! A slope on a parameter that isn't known to be a number, in words.

use crate::known::{Flow, put_at_block, put_parameter_of};
use gw_object::{Memory, Place};
use gw_rules::slope_at;
use gw_writing::{put, put_number};

/// How the weight of a block grows, if it does.
fn put_slope_of(out: &mut Vec<u8>, flow: Flow<'_>, number: u16) -> Result<(), Memory> {
    match slope_at(flow.parts.slopes.as_slice(), number) {
        Some((parameter, per)) => {
            put_number(out, "known: the weight of block ", number)?;
            put_number(out, " grows by ", per)?;
            put(out, " for each 1 of ")?;
            put_parameter_of(out, flow.names, parameter)?;
            put(out, "\n")
        }
        None => Ok(()),
    }
}

/// What is known where a slope was refused at a place.
pub(crate) fn put_slope(out: &mut Vec<u8>, flow: Flow<'_>, place: Place) -> Result<(), Memory> {
    match place {
        Place::Block(number) => {
            put_slope_of(out, flow, number)?;
            put_at_block(out, flow, number)
        }
        _ => Ok(()),
    }
}
