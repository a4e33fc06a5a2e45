//! The blocks that return rows name.

ghost use Rattle.std.specs.Prelude.{◌≡◌};
ghost use Rattle.gw_rules.specs.Kinds as model;

use crate::checks::NumberedChecks;
use gw_object::{Block, Fault, Parts, Place, ReturnRow};
use gw_rules::kinds_codes::WRONG_KIND;
use gw_rules::{check, is_call};

/// Whether there is a block of this number, from 1, that calls a subroutine.
fn is_call_at(blocks: &[Block], number: u16) -> bool
    ensures { result ≡ model.is_call_at blocks.now number }
{
    number != 0
        && blocks
            .get(number as usize - 1)
            .is_some_and(|block| is_call(block))
}

/// Whether each block of a return row is there and calls a subroutine.
fn names_calls(blocks: &[Block], row: &ReturnRow) -> bool
    ensures { result ≡ model.names_calls blocks.now row.now }
{
    row.blocks
        .as_slice()
        .iter()
        .all(|number| is_call_at(blocks, *number))
}

/// The checks of return rows.
pub(crate) struct Returns;

impl NumberedChecks<ReturnRow> for Returns {
    ghost checks = { λ _. model.return_checks };

    fn check_one(&self, parts: &Parts, number: u16, element: &ReturnRow) -> Result<(), Fault> {
        let called = names_calls(parts.blocks.as_slice(), element);
        check(WRONG_KIND, Place::Row(number), called)
    }
}
