//! What is told of a model text.

ghost use Rattle.std.specs.Prelude.{◌≡◌, []};

use std::alloc::Global;

/// Where the parts of the object that a model text becomes stand in the text: lines, from 1.
#[derive(Drop)]
pub struct Sources {
    /// The lines of the block statements: that of block 1 stands first.
    pub blocks: Vec<u32>,
    /// The lines of the entities, by their numbers from 0: of the declaration, or else of the first mention.
    pub entities: Vec<u32>,
    /// The lines of the procedures, by their numbers from 0: of the statement that each comes from.
    pub procedures: Vec<u32>,
}

impl Sources {
    /// Those of what comes from no text: none.
    pub fn none(alloc: Global) -> Sources
        ensures blocks { result.blocks.items ≡ [] }
        ensures entities { result.entities.items ≡ [] }
        ensures procedures { result.procedures.items ≡ [] }
    {
        Sources {
            blocks: Vec::new(alloc),
            entities: Vec::new(alloc),
            procedures: Vec::new(alloc),
        }
    }
}
