//! What names stand for by the statements that declare them: blocks, PROCEDUREs and EQUs.

ghost use Rattle.std.specs.Prelude.{◌≡◌, IfOk};
ghost use Rattle.gw_names.specs.Known.{Finds};
ghost use Rattle.gw_names.specs.Places as model;
ghost use Rattle.gw_names.specs.Places.{Sets, SetsEqu, SetsNumber, SetsProcedure};
ghost use Rattle.gw_names.specs.Places.{block_of, procedure_of, equ_of, equ_number_of};

use crate::declarations::{set_equ, set_procedure};
use crate::equs::keep;
use crate::labels::count;
use gw_text::Statement;
use indexmap::IndexMap;
use std::alloc::{AllocError, Global};

/// What names stand for: of each that of its last declaration.
#[derive(Drop)]
pub(crate) struct Places {
    /// The numbers of blocks by label, from 1.
    pub(crate) blocks: IndexMap<String, u16>,
    /// PROCEDUREs: the statement, from 0.
    pub(crate) procedures: IndexMap<String, usize>,
    /// EQUs: the statement, from 0.
    pub(crate) equs: IndexMap<String, usize>,
    /// The EQUs that are numbers.
    pub(crate) equ_numbers: IndexMap<String, i64>,
}

/// What a statement declares is added, before which there are so many blocks; how many there are behind it.
fn add(
    places: &mut Places,
    blocks: u16,
    place: usize,
    statement: &Statement,
) -> Result<u16, AllocError>
    ensures counted { IfOk result (λ after. after ≡ model.blocks_up_to blocks statement.now) }
    ensures blocks { Sets result places.old.blocks places.new.blocks
        (model.block_label blocks statement.now) }
    ensures procedures { SetsProcedure result places.old places.new statement.now place }
    ensures equs { SetsEqu result places.old places.new statement.now place }
    ensures numbers { SetsNumber result places.old places.new statement.now }
{
    set_procedure(&mut places.procedures, place, statement)?;
    set_equ(&mut places.equs, place, statement)?;
    keep(&mut places.equ_numbers, statement)?;
    count(&mut places.blocks, blocks, statement)
}

/// What the names of these statements stand for.
pub(crate) fn places_in(alloc: Global, statements: &[Statement]) -> Result<Places, AllocError>
    ensures blocks { IfOk result (λ p. Finds (block_of statements.now) p.blocks) }
    ensures procedures { IfOk result (λ p. Finds (procedure_of statements.now) p.procedures) }
    ensures equs { IfOk result (λ p. Finds (equ_of statements.now) p.equs) }
    ensures numbers { IfOk result (λ p. Finds (equ_number_of statements.now) p.equ_numbers) }
{
    let mut places = Places {
        blocks: IndexMap::new(alloc),
        procedures: IndexMap::new(alloc),
        equs: IndexMap::new(alloc),
        equ_numbers: IndexMap::new(alloc),
    };
    let mut blocks = 0;
    for i in 0..statements.len() {
        blocks = add(&mut places, blocks, i, &statements[i])?;
    }
    Ok(places)
}
