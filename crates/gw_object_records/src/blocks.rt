//! The records of block statements.

ghost use Rattle.std.specs.Prelude.{◌≡◌, ◌∷◌, [], Some};
ghost use Rattle.gw_text_tokens.specs.declared.words.Word.TheVariants as words;
ghost use Rattle.gw_text_statements.specs.declared.model.Operand.TheVariants as texts;
ghost use Rattle.gw_object_records.specs.Records as model;
ghost use Rattle.gw_object_records.specs.Records.{by_reading};

use crate::operands::*;
use crate::operators::{action_of, asked_of, comparison_of, condition_of, mode_of};
use gw_compile::Numbering;
use gw_object::{
    Assign, Block, Both, Call, Fraction, Generate, Link, Logic, Loop, Operand, Plus, Priority,
    Save, Split, Spread, Units, Unlink,
};
use gw_rules::EntityKind;
use gw_text::{Gate, Modifier, Operand as Text, Statement, Switching, Test, Word};

/// GENERATE, with this interval.
fn generate_of(
    interval: Option<Spread>,
    first: &Text,
    limit: &Text,
    priority: &Text,
) -> Option<Block>
    ensures { result ≡ model.generate_of interval first.now limit.now priority.now }
{
    Some(Block::Generate(Generate {
        interval: interval?,
        first: optional_whole_of(first)?,
        limit: optional_count_of(limit)?,
        priority: priority_of(priority)?,
    }))
}

/// What the operands of a statement are read by.
#[derive(Drop)]
struct Reading<'a, N: Numbering> {
    /// What names stand for.
    names: &'a N,
    /// What operands that are expressions become: procedures, by their numbers from 0.
    procedures: &'a [Option<u16>],
}

impl<N: Numbering> Reading<'_, N> {
    /// The value of the operand at a position.
    fn value_at(&self, position: usize, operand: &Text) -> Option<Operand>
        ensures { result ≡ by_reading N.numbers self.now model.value_at position operand.now }
    {
        value_of(self.names, procedure_at(self.procedures, position), operand)
    }

    /// A time, of operands that are the first two.
    fn time_of(&self, mean: &Text, half: &Text) -> Option<Spread>
        ensures { result ≡ by_reading N.numbers self.now model.time_in mean.now half.now }
    {
        Some(Spread {
            mean: self.value_at(0, mean)?,
            half: self.value_at(1, half)?,
        })
    }

    /// Units of an entity of this kind.
    fn units_in(&self, kind: EntityKind, entity: &Text, number: &Text) -> Option<Units>
        ensures { result ≡ model.units_in (N.numbers self.now.names.now)
            kind entity.now number.now }
    {
        Some(Units {
            entity: entity_of(self.names, kind, entity)?,
            number: units_of(number)?,
        })
    }

    /// TEST.
    fn test_of(&self, test: Test, left: &Text, right: &Text, otherwise: &Text) -> Option<Block>
        ensures { result ≡ by_reading N.numbers self.now model.test_of test left.now right.now otherwise.now }
    {
        Some(Block::Test(gw_object::Test {
            comparison: comparison_of(test),
            left: self.value_at(0, left)?,
            right: self.value_at(1, right)?,
            otherwise: optional_block_of(self.names, otherwise)?,
        }))
    }

    /// GATE.
    fn gate_of(&self, gate: Gate, entity: &Text, otherwise: &Text) -> Option<Block>
        ensures { result ≡ model.gate_of (N.numbers self.now.names.now)
            gate entity.now otherwise.now }
    {
        Some(Block::Gate(gw_object::Gate {
            condition: condition_of(gate),
            entity: entity_of(self.names, asked_of(gate), entity)?,
            otherwise: optional_block_of(self.names, otherwise)?,
        }))
    }

    /// ASSIGN.
    fn assign_of(&self, modifier: Option<Modifier>, parameter: &Text, value: &Text) -> Option<Block>
        ensures { result ≡ by_reading N.numbers self.now model.assign_of modifier parameter.now value.now }
    {
        Some(Block::Assign(Assign {
            parameter: parameter_of(self.names, parameter)?,
            mode: mode_of(modifier),
            value: self.value_at(1, value)?,
        }))
    }

    /// SAVEVALUE.
    fn save_of(&self, modifier: Option<Modifier>, savevalue: &Text, value: &Text) -> Option<Block>
        ensures { result ≡ by_reading N.numbers self.now model.save_of modifier savevalue.now value.now }
    {
        Some(Block::Savevalue(Save {
            savevalue: entity_of(self.names, EntityKind::Savevalue, savevalue)?,
            mode: mode_of(modifier),
            value: self.value_at(1, value)?,
        }))
    }

    /// TRANSFER by a fraction.
    fn by_fraction(&self, thousandths: u16, otherwise: &Text, target: &Text) -> Option<Block>
        ensures { result ≡ model.by_fraction (N.numbers self.now.names.now)
            thousandths otherwise.now target.now }
    {
        Some(Block::TransferByFraction(Fraction {
            thousandths,
            otherwise: optional_block_of(self.names, otherwise)?,
            target: block_of(self.names, target)?,
        }))
    }

    /// TRANSFER BOTH.
    fn both_of(&self, first: &Text, second: &Text) -> Option<Block>
        ensures { result ≡ model.both_of (N.numbers self.now.names.now) first.now second.now }
    {
        Some(Block::TransferBoth(Both {
            first: optional_block_of(self.names, first)?,
            second: block_of(self.names, second)?,
        }))
    }

    /// TRANSFER to a subroutine.
    fn call_of(&self, target: &Text, parameter: &Text) -> Option<Block>
        ensures { result ≡ model.call_of (N.numbers self.now.names.now) target.now parameter.now }
    {
        Some(Block::TransferToSubroutine(Call {
            target: block_of(self.names, target)?,
            parameter: parameter_of(self.names, parameter)?,
        }))
    }

    /// LOOP.
    fn loop_of(&self, parameter: &Text, target: &Text) -> Option<Block>
        ensures { result ≡ model.loop_of (N.numbers self.now.names.now) parameter.now target.now }
    {
        Some(Block::Loop(Loop {
            parameter: parameter_of(self.names, parameter)?,
            target: block_of(self.names, target)?,
        }))
    }

    /// SPLIT.
    fn split_of(&self, copies: &Text, target: &Text) -> Option<Block>
        ensures { result ≡ model.split_of (N.numbers self.now.names.now) copies.now target.now }
    {
        Some(Block::Split(Split {
            copies: partners_of(copies)?,
            target: optional_block_of(self.names, target)?,
        }))
    }

    /// LINK.
    fn link_of(&self, chain: &Text, order: &Text) -> Option<Block>
        ensures { result ≡ model.link_of (N.numbers self.now.names.now) chain.now order.now }
    {
        Some(Block::Link(Link {
            chain: entity_of(self.names, EntityKind::Chain, chain)?,
            order: order_of(order),
        }))
    }

    /// UNLINK.
    fn unlink_of(&self, chain: &Text, target: &Text, most: &Text) -> Option<Block>
        ensures { result ≡ model.unlink_of (N.numbers self.now.names.now)
            chain.now target.now most.now }
    {
        Some(Block::Unlink(Unlink {
            chain: entity_of(self.names, EntityKind::Chain, chain)?,
            target: block_of(self.names, target)?,
            most: optional_count_of(most)?,
        }))
    }

    /// LOGIC.
    fn logic_of(&self, switching: Switching, switch: &Text) -> Option<Block>
        ensures { result ≡ model.logic_of (N.numbers self.now.names.now) switching switch.now }
    {
        Some(Block::Logic(Logic {
            action: action_of(switching),
            switch: entity_of(self.names, EntityKind::Switch, switch)?,
        }))
    }

    /// PRIORITY.
    fn priority_block_of(&self, value: &Text, behind: &Text) -> Option<Block>
        ensures { result ≡ by_reading N.numbers self.now model.priority_of value.now behind.now }
    {
        Some(Block::Priority(Priority {
            value: self.value_at(0, value)?,
            behind: is_written(behind),
        }))
    }

    /// PLUS.
    fn plus_of(&self, value: &Text, parameter: &Text) -> Option<Block>
        ensures { result ≡ by_reading N.numbers self.now model.plus_of value.now parameter.now }
    {
        Some(Block::Plus(Plus {
            value: self.value_at(0, value)?,
            parameter: optional_parameter_of(self.names, parameter)?,
        }))
    }

    /// A block of one operand.
    fn of_one(&self, word: Word, modifier: Option<Modifier>, operand: &Text) -> Option<Block>
        ensures { result ≡ by_reading N.numbers self.now model.block_of word modifier (operand.now ∷ []) }
    {
        match word {
            Word::Terminate => self.value_at(0, operand).map(Block::Terminate),
            Word::Seize => entity_of(self.names, EntityKind::Facility, operand).map(Block::Seize),
            Word::Release => entity_of(self.names, EntityKind::Facility, operand).map(
                Block::Release,
            ),
            Word::Assemble => partners_of(operand).map(Block::Assemble),
            Word::Mark => optional_parameter_of(self.names, operand).map(Block::Mark),
            Word::Tabulate => entity_of(self.names, EntityKind::Table, operand).map(
                Block::Tabulate,
            ),
            Word::Logic => match modifier {
                Some(Modifier::Logic(switching)) => self.logic_of(switching, operand),
                _ => None,
            },
            _ => None,
        }
    }

    /// TRANSFER with two operands: to a block, or back from a subroutine.
    fn transfer_of_two(&self, form: &Text, operand: &Text) -> Option<Block>
        ensures { result ≡ model.transfer_of_two (N.numbers self.now.names.now)
            form.now operand.now }
    {
        match form {
            Text::Missing => block_of(self.names, operand).map(Block::Transfer),
            Text::Name(_) => parameter_of(self.names, operand).map(Block::TransferByParameter),
            _ => None,
        }
    }

    /// TRANSFER with three operands: by a fraction, to one of two blocks, or to a subroutine.
    fn transfer_of_three(&self, form: &Text, first: &Text, second: &Text) -> Option<Block>
        ensures { result ≡ model.transfer_of_three (N.numbers self.now.names.now)
            form.now first.now second.now }
    {
        match form {
            Text::Fraction(thousandths) => self.by_fraction(*thousandths, first, second),
            Text::Both => self.both_of(first, second),
            Text::Name(_) => self.call_of(first, second),
            _ => None,
        }
    }

    /// A block of two operands.
    fn of_two(&self, word: Word, modifier: Option<Modifier>, a: &Text, b: &Text) -> Option<Block>
        ensures { result ≡ by_reading N.numbers self.now model.block_of word modifier (a.now ∷ b.now ∷ []) }
    {
        match word {
            Word::Advance => self.time_of(a, b).map(Block::Advance),
            Word::Enter => self.units_in(EntityKind::Storage, a, b).map(Block::Enter),
            Word::Leave => self.units_in(EntityKind::Storage, a, b).map(Block::Leave),
            Word::Queue => self.units_in(EntityKind::Queue, a, b).map(Block::Queue),
            Word::Depart => self.units_in(EntityKind::Queue, a, b).map(Block::Depart),
            Word::Assign => self.assign_of(modifier, a, b),
            Word::Savevalue => self.save_of(modifier, a, b),
            Word::Gate => match modifier {
                Some(Modifier::Gate(gate)) => self.gate_of(gate, a, b),
                _ => None,
            },
            Word::Transfer => self.transfer_of_two(a, b),
            Word::Loop => self.loop_of(a, b),
            Word::Split => self.split_of(a, b),
            Word::Link => self.link_of(a, b),
            Word::Priority => self.priority_block_of(a, b),
            Word::Plus => self.plus_of(a, b),
            _ => None,
        }
    }

    /// A block of three operands.
    fn of_three(
        &self,
        word: Word,
        modifier: Option<Modifier>,
        a: &Text,
        b: &Text,
        c: &Text,
    ) -> Option<Block>
        ensures { result ≡ by_reading N.numbers self.now model.block_of
            word modifier (a.now ∷ b.now ∷ c.now ∷ []) }
    {
        match word {
            Word::Test => match modifier {
                Some(Modifier::Test(test)) => self.test_of(test, a, b, c),
                _ => None,
            },
            Word::Transfer => self.transfer_of_three(a, b, c),
            Word::Unlink => self.unlink_of(a, b, c),
            _ => None,
        }
    }
}

/// The record of a block statement (docs/object-format.md), where the operands that are expressions become these procedures,
/// by their numbers from 0; nothing where a name in it isn't known, where the operands aren't those of its word, or where the
/// statement is no block.
pub fn record_of<N: Numbering>(
    names: &N,
    procedures: &[Option<u16>],
    statement: &Statement,
) -> Option<Block>
    ensures { result ≡ model.record_of (N.numbers names.now) procedures.now statement.now }
{
    let reading = Reading { names, procedures };
    let word = statement.word;
    let modifier = statement.modifier;
    match statement.operands.as_slice() {
        [] => match word {
            Word::Buffer => Some(Block::Buffer),
            _ => None,
        },
        [a] => reading.of_one(word, modifier, a),
        [a, b] => reading.of_two(word, modifier, a, b),
        [a, b, c] => reading.of_three(word, modifier, a, b, c),
        [a, b, c, d, e] => match word {
            Word::Generate => generate_of(reading.time_of(a, b), c, d, e),
            _ => None,
        },
        _ => None,
    }
}
