//! The checks of blocks.

ghost use Rattle.gw_rules.specs.Kinds as model;

use crate::calls::{called_are_there, calls_without_arguments};
use crate::checks::NumberedChecks;
use crate::constants::has_good_constants;
use crate::entities::{are_there, names_no_other_kind};
use crate::operands::has_plain_half;
use crate::targets::{enters_no_generate, has_named_blocks, never_falls_off};
use gw_object::{Block, Fault, Parts, Place};
use gw_rules::check;
use gw_rules::kinds_codes::*;

/// The checks of blocks.
pub(crate) struct Blocks;

impl NumberedChecks<Block> for Blocks {
    ghost checks = { λ _. model.block_checks };

    fn check_one(&self, parts: &Parts, number: u16, element: &Block) -> Result<(), Fault> {
        let place = Place::Block(number);
        let entities = parts.entities.as_slice();
        let procedures = parts.procedures.as_slice();
        let is_right = names_no_other_kind(entities, element)
            && calls_without_arguments(procedures, element)
            && has_plain_half(element);
        check(WRONG_KIND, place, is_right)?;
        let are_there = are_there(entities, element) && called_are_there(procedures, element);
        check(NO_ENTITY, place, are_there)?;
        let blocks = parts.blocks.as_slice();
        check(NO_BLOCK, place, has_named_blocks(blocks, element))?;
        check(
            ENTERS_GENERATE,
            place,
            enters_no_generate(blocks, number, element),
        )?;
        check(FALLS_OFF, place, never_falls_off(blocks, number, element))?;
        check(BAD_CONSTANT, place, has_good_constants(element))
    }
}
