//! Which version of the object format the blocks of a model text ask for.

ghost use Rattle.std.specs.Prelude.{◌≡◌};
ghost use Rattle.gw_pieces.specs.Versions as model;

use gw_object::Block;

/// Whether the first version doesn't have this block: a TRANSFER in both mode.
fn is_choice(block: &Block) -> bool
    ensures { result ≡ model.is_choice block.now }
{
    matches!(block, Block::TransferBoth(_))
}

/// Whether one of these blocks is none of the first version.
fn has_choice(blocks: &[Block]) -> bool
    ensures { result ≡ model.has_choice blocks.now }
{
    blocks.iter().any(|block| is_choice(block))
}

/// The least version of the object format that has these blocks: 2 where one of them is a TRANSFER in both mode, else 1.
pub(crate) fn version_of(blocks: &[Block]) -> u16
    ensures { result ≡ model.version_of blocks.now }
{
    if has_choice(blocks) { 2 } else { 1 }
}
