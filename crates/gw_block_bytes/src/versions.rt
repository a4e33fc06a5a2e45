//! The blocks of a version of the object format: the first has no TRANSFER in both mode, and later ones have.

ghost use Rattle.std.specs.Prelude.{◌≡◌, ◌↔◌, IsTrue};
ghost use Rattle.std.specs.List.{All};
ghost use Rattle.gw_object.specs.BlockGrammar.{IsOfVersion, block, choice};
ghost use Rattle.gw_object.specs.BlockGrammar as model;
ghost use Rattle.gw_fields.specs.Fields.{list_of, plain};
ghost use Rattle.gw_fields.specs.Answers.{Gives};

use crate::BlockFormat;
use gw_field_bytes::{Elements, Front, Plain, Reading, Spelled, read_listed};
use gw_fields::ReadError;
use gw_object::{Block, Both};
use std::alloc::Global;

/// The tag of a TRANSFER in both mode.
const BOTH: u8 = 29;

/// Whether a version has blocks with two next blocks.
fn has_choices(version: u16) -> bool
    ensures { result ≡ model.has_choices version }
{
    version != 1
}

/// The two blocks of a TRANSFER in both mode.
fn read_choice(alloc: Global, bytes: &[u8]) -> Result<(Both, &[u8]), ReadError>
    ensures { Gives (λ x. (x.0, x.1.now)) result (choice.read bytes.now) }
{
    let ((first, second), rest) = Spelled::read(alloc, bytes)?;
    Ok((Both { first, second }, rest))
}

/// A block of a version.
#[tactic(auto, unfolding(gw_object::specs::BlockGrammar::block_read))]
pub fn read_block(alloc: Global, version: u16, bytes: &[u8]) -> Result<(Block, &[u8]), ReadError>
    ensures { Gives (λ x. (x.0, x.1.now)) result ((block version).read bytes.now) }
{
    let (tag, rest) = u8::read(alloc, bytes)?;
    if tag == BOTH && has_choices(version) {
        let (choice, rest) = read_choice(alloc, rest)?;
        return Ok((Block::TransferBoth(choice), rest));
    }
    Block::read(alloc, bytes)
}

/// A list of blocks of a version that has those with two next blocks.
struct WithChoices;

impl Elements for WithChoices {
    type Item = Block;

    ghost reading = { (plain (block 2)).read };

    fn read<'a>(alloc: Global, _: Front<Self>, _: usize, bytes: &'a [u8]) -> Reading<'a, Self> {
        read_block(alloc, 2, bytes)
    }
}

/// A count of blocks of a version, up to a limit, and as many blocks.
#[tactic(auto, unfolding(gw_object::specs::BlockGrammar::block_read))]
pub fn read_blocks(
    alloc: Global,
    version: u16,
    bytes: &[u8],
    most: usize,
) -> Result<(Vec<Block>, &[u8]), ReadError>
    ensures { Gives (λ x. (x.0.items, x.1.now)) result ((list_of 0 most (plain (block version))).read bytes.now) }
{
    if has_choices(version) {
        read_listed::<WithChoices>(alloc, bytes, 0, most)
    } else {
        read_listed::<Plain<BlockFormat, Block>>(alloc, bytes, 0, most)
    }
}

/// Whether a version has a block.
fn is_of_version(version: u16, block: &Block) -> bool
    ensures { IsTrue result ↔ IsOfVersion version block.now }
{
    match block {
        Block::TransferBoth(_) => has_choices(version),
        _ => true,
    }
}

/// Whether a version has each of these blocks.
pub fn are_of_version(version: u16, blocks: &[Block]) -> bool
    ensures { IsTrue result ↔ All (IsOfVersion version) blocks.now }
{
    blocks.iter().all(|block| is_of_version(version, block))
}
