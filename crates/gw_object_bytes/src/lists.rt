//! The lists of an object whose elements are numbers: seeds and the weights of user chains.

ghost use Rattle.gw_fields.specs.Fields.{plain};
ghost use Rattle.gw_object.specs.Grammar.{seed, weight};

use gw_field_bytes::{Elements, Front, Reading, read_ranged_u32};
use gw_fields::fault;
use gw_object::codes::NOT_CANONICAL;
use gw_object::{GREATEST_SEED, GREATEST_WEIGHT};
use std::alloc::Global;

/// The seeds; the last isn't 0.
pub struct Seeds;

impl Elements for Seeds {
    type Item = u32;

    ghost reading = { seed.read };

    fn read<'a>(alloc: Global, _: Front<Self>, left: usize, bytes: &'a [u8]) -> Reading<'a, Self> {
        let (seed, rest) = read_ranged_u32(alloc, bytes, 0, GREATEST_SEED)?;
        if left == 0 && seed == 0 {
            return Err(fault(NOT_CANONICAL, bytes));
        }
        Ok((seed, rest))
    }
}

/// The weights, one for each user chain.
pub struct Weights;

impl Elements for Weights {
    type Item = u32;

    ghost reading = { (plain weight).read };

    fn read<'a>(alloc: Global, _: Front<Self>, _: usize, bytes: &'a [u8]) -> Reading<'a, Self> {
        read_ranged_u32(alloc, bytes, 1, GREATEST_WEIGHT)
    }
}
