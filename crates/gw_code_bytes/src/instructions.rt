//! Instructions, in bytes and against the rules of the object format.

ghost use Rattle.std.specs.Prelude.{◌≡◌, ◌<◌, ◌⊎◌, [], ◌∷◌, MatchOption};
ghost use Rattle.gw_object.specs.CodeGrammar as grammar;
ghost use Rattle.gw_object.specs.CodeGrammar.{sna, instruction, instruction_spelling, backs, next_instruction};
ghost use Rattle.gw_code_bytes.specs.Operators.{StandsFor};

use crate::CodeFormat;
use gw_block_bytes::read_parameter_number;
use gw_field_bytes::{Elements, Front, Reading, Receiver, Spelled, put_behind};
use gw_fields::codes::{LIMIT, TAG};
use gw_fields::{ReadError, fault};
use gw_num::{Binary, Unary};
use gw_object::{Attribute, Back, Instruction, MOST_BACKS, Numbered, Sna};
use std::alloc::Global;

/// The tag of a BACK.
const BACK_TAG: u8 = 23;

impl Spelled<CodeFormat> for Sna {
    ghost spelling = { sna.spell };

    ghost reading = { sna.read };

    fn put<R: Receiver>(&self, to: &mut R) -> Result<(), R::Refusal> {
        match self {
            Sna::Parameter(number) => put_behind(to, 1, number),
            Sna::Attribute(attribute) => put_behind(to, 2, attribute),
            Sna::OfEntity(numbered) => put_behind(to, 3, numbered),
        }
    }

    #[tactic(auto, unfolding(gw_object::specs::CodeGrammar::sna_read))]
    fn read(alloc: Global, bytes: &[u8]) -> Result<(Sna, &[u8]), ReadError> {
        let (tag, rest) = u8::read(alloc, bytes)?;
        match tag {
            1 => {
                let (number, rest) = read_parameter_number(alloc, rest)?;
                Ok((Sna::Parameter(number), rest))
            }
            2 => {
                let (attribute, rest) = Attribute::read(alloc, rest)?;
                Ok((Sna::Attribute(attribute), rest))
            }
            3 => {
                let (numbered, rest) = Numbered::read(alloc, rest)?;
                Ok((Sna::OfEntity(numbered), rest))
            }
            _ => Err(fault(TAG, bytes)),
        }
    }
}

/// The byte that stands for an operator between two values.
fn binary_byte(operator: Binary) -> u8
    ensures { instruction_spelling (Instruction.Binary operator) ≡ result ∷ [] }
{
    match operator {
        Binary::Add => 4,
        Binary::Subtract => 5,
        Binary::Multiply => 6,
        Binary::Divide => 7,
        Binary::Remainder => 8,
        Binary::Power => 9,
        Binary::Equal => 11,
        Binary::NotEqual => 12,
        Binary::Greater => 13,
        Binary::GreaterOrEqual => 14,
        Binary::Less => 15,
        Binary::LessOrEqual => 16,
        Binary::And => 17,
        Binary::Or => 18,
    }
}

/// The byte that stands for an operator before a value.
fn unary_byte(operator: Unary) -> u8
    ensures { instruction_spelling (Instruction.Unary operator) ≡ result ∷ [] }
{
    match operator {
        Unary::Negate => 10,
        Unary::Not => 19,
    }
}

/// The operator for which a tag stands, as an instruction; `None` where it stands for none: theirs are 4 to 19.
#[tactic(auto, unfolding(gw_object::specs::CodeGrammar::instruction_read))]
fn operator_of(tag: u8) -> Option<Instruction>
    ensures { MatchOption result ((tag < 4) ⊎ (19 < tag)) (StandsFor tag) }
{
    match tag {
        4 => Some(Instruction::Binary(Binary::Add)),
        5 => Some(Instruction::Binary(Binary::Subtract)),
        6 => Some(Instruction::Binary(Binary::Multiply)),
        7 => Some(Instruction::Binary(Binary::Divide)),
        8 => Some(Instruction::Binary(Binary::Remainder)),
        9 => Some(Instruction::Binary(Binary::Power)),
        10 => Some(Instruction::Unary(Unary::Negate)),
        11 => Some(Instruction::Binary(Binary::Equal)),
        12 => Some(Instruction::Binary(Binary::NotEqual)),
        13 => Some(Instruction::Binary(Binary::Greater)),
        14 => Some(Instruction::Binary(Binary::GreaterOrEqual)),
        15 => Some(Instruction::Binary(Binary::Less)),
        16 => Some(Instruction::Binary(Binary::LessOrEqual)),
        17 => Some(Instruction::Binary(Binary::And)),
        18 => Some(Instruction::Binary(Binary::Or)),
        19 => Some(Instruction::Unary(Unary::Not)),
        _ => None,
    }
}

impl Spelled<CodeFormat> for Instruction {
    ghost spelling = { instruction.spell };

    ghost reading = { instruction.read };

    fn put<R: Receiver>(&self, to: &mut R) -> Result<(), R::Refusal> {
        match self {
            Instruction::Push(number) => put_behind(to, 0, number),
            Instruction::Get(local) => put_behind(to, 1, local),
            Instruction::Set(local) => put_behind(to, 2, local),
            Instruction::Value(sna) => put_behind(to, 3, sna),
            Instruction::Binary(operator) => binary_byte(*operator).put(to),
            Instruction::Unary(operator) => unary_byte(*operator).put(to),
            Instruction::Pop => 20_u8.put(to),
            Instruction::Jump(target) => put_behind(to, 21, target),
            Instruction::JumpIfZero(target) => put_behind(to, 22, target),
            Instruction::Back(back) => put_behind(to, BACK_TAG, &(back.target, back.count)),
            Instruction::Call(procedure) => put_behind(to, 24, procedure),
            Instruction::Return => 25_u8.put(to),
        }
    }

    #[tactic(auto, unfolding(gw_object::specs::CodeGrammar::instruction_read))]
    fn read(alloc: Global, bytes: &[u8]) -> Result<(Instruction, &[u8]), ReadError> {
        let (tag, rest) = u8::read(alloc, bytes)?;
        match tag {
            0 => i64::read(alloc, rest).map(|(number, rest)| (Instruction::Push(number), rest)),
            1 => u8::read(alloc, rest).map(|(local, rest)| (Instruction::Get(local), rest)),
            2 => u8::read(alloc, rest).map(|(local, rest)| (Instruction::Set(local), rest)),
            3 => Sna::read(alloc, rest).map(|(sna, rest)| (Instruction::Value(sna), rest)),
            20 => Ok((Instruction::Pop, rest)),
            21 => u16::read(alloc, rest).map(|(target, rest)| (Instruction::Jump(target), rest)),
            22 => {
                u16::read(alloc, rest).map(|(target, rest)| (Instruction::JumpIfZero(target), rest))
            }
            BACK_TAG => {
                let ((target, count), rest) = Spelled::read(alloc, rest)?;
                Ok((Instruction::Back(Back { target, count }), rest))
            }
            24 => u16::read(alloc, rest).map(|(number, rest)| (Instruction::Call(number), rest)),
            25 => Ok((Instruction::Return, rest)),
            _ => match operator_of(tag) {
                Some(operator) => Ok((operator, rest)),
                None => Err(fault(TAG, bytes)),
            },
        }
    }
}

/// Whether an instruction is a BACK.
fn is_back(instruction: &Instruction) -> bool
    ensures { result ≡ grammar.is_back instruction.now }
{
    matches!(instruction, Instruction::Back(_))
}

/// How many instructions of code are BACKs.
pub fn count_backs(code: &[Instruction]) -> usize
    ensures { result ≡ backs code.now }
{
    code.iter()
        .filter(|instruction| is_back(instruction))
        .count()
}

/// The instructions of a procedure, of which at most 32 are BACKs. Those at the front are counted only where a BACK's tag
/// comes, so that reading a list counts 33 times at most.
pub struct Code;

impl Elements for Code {
    type Item = Instruction;

    ghost reading = { next_instruction.read };

    fn read<'a>(alloc: Global, front: Front<Self>, _: usize, bytes: &'a [u8]) -> Reading<'a, Self> {
        if bytes.first() == Some(&BACK_TAG) && count_backs(front) >= MOST_BACKS {
            return Err(fault(LIMIT, bytes));
        }
        Instruction::read(alloc, bytes)
    }
}
