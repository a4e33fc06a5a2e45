//! The lines of the entities.

ghost use Rattle.std.specs.Prelude.{◌++◌, codes};
ghost use Rattle.gw_writing.specs.Text.{Puts};
ghost use Rattle.gw_report.specs.Report.{contents_text, ownership_text, facility_line, storage_line, queue_line, lines_of, entity_lines};

use crate::average::put_average;
use crate::figures::Figures;
use crate::tables::put_table_lines;
use crate::text::put_name;
use gw_entities::{Contents, Facility};
use gw_object::{Entity, Kind, Memory};
use gw_writing::{put, put_number};
use itoa::Integer;

/// What is inside of a storage or a queue, in units.
fn put_contents(out: &mut Vec<u8>, contents: Contents) -> Result<(), Memory>
    ensures { Puts result out.old out.new (contents_text contents) }
{
    put_number(out, " CONTENT ", contents.content)?;
    put_number(out, " MAX ", contents.maximum)?;
    put_number(out, " ENTRIES ", contents.entries)
}

/// The entries of a facility, and the number of the transaction that owns it: 0 for nobody.
fn put_ownership(out: &mut Vec<u8>, facility: Facility) -> Result<(), Memory>
    ensures { Puts result out.old out.new (ownership_text facility) }
{
    put_number(out, " ENTRIES ", facility.entries)?;
    put_number(out, " OWNER ", facility.owner.unwrap_or(0))
}

fn put_facility_line(
    out: &mut Vec<u8>,
    figures: &Figures,
    number: usize,
    name: &[u8],
) -> Result<(), Memory>
    ensures { Puts result out.old out.new (facility_line figures.now number name.now) }
{
    let here = figures.entity(number);
    put_name(out, "FACILITY ", name)?;
    put_ownership(out, here.facility)?;
    put_number(out, " WAIT ", here.waiting)?;
    put_average(out, " UTIL ", here.facility.busy, figures)?;
    put(out, "\n")
}

fn put_storage_line(
    out: &mut Vec<u8>,
    figures: &Figures,
    number: usize,
    name: &[u8],
) -> Result<(), Memory>
    ensures { Puts result out.old out.new (storage_line figures.now number name.now) }
{
    let here = figures.entity(number);
    put_name(out, "STORAGE ", name)?;
    put_number(out, " CAP ", here.storage.capacity)?;
    put_contents(out, here.storage.contents)?;
    put_number(out, " WAIT ", here.waiting)?;
    put_average(out, " AVG ", here.storage.contents.time_sum, figures)?;
    put(out, "\n")
}

fn put_queue_line(
    out: &mut Vec<u8>,
    figures: &Figures,
    number: usize,
    name: &[u8],
) -> Result<(), Memory>
    ensures { Puts result out.old out.new (queue_line figures.now number name.now) }
{
    let queue = figures.entity(number).queue;
    put_name(out, "QUEUE ", name)?;
    put_contents(out, queue)?;
    put_average(out, " AVG ", queue.time_sum, figures)?;
    put(out, "\n")
}

/// A line of a word, the name of an entity and one number, with a text before it.
fn put_number_line<I: Integer>(
    out: &mut Vec<u8>,
    word: &str,
    name: &[u8],
    text: &str,
    number: I,
) -> Result<(), Memory>
    ensures { Puts result out.old out.new
        (word.now ++ name.now ++ text.now ++ I.text number ++ codes "\n") }
{
    put_name(out, word, name)?;
    put_number(out, text, number)?;
    put(out, "\n")
}

/// The lines of an entity: variables and functions have none.
fn put_lines_of(
    out: &mut Vec<u8>,
    figures: &Figures,
    number: usize,
    entity: &Entity,
) -> Result<(), Memory>
    ensures { Puts result out.old out.new (lines_of figures.now number entity.now) }
{
    let name = entity.name.as_slice();
    match &entity.kind {
        Kind::Facility => put_facility_line(out, figures, number, name),
        Kind::Storage(_) => put_storage_line(out, figures, number, name),
        Kind::Queue => put_queue_line(out, figures, number, name),
        Kind::Switch(_) => {
            let set = u8::from(figures.entity(number).switch);
            put_number_line(out, "SWITCH ", name, " ", set)
        }
        Kind::Savevalue(_) => {
            put_number_line(
                out,
                "SAVEVALUE ",
                name,
                " ",
                figures.entity(number).savevalue,
            )
        }
        Kind::Table(_) => put_table_lines(out, figures, number, name),
        Kind::Chain => {
            put_number_line(
                out,
                "CHAIN ",
                name,
                " CONTENT ",
                figures.entity(number).members,
            )
        }
        Kind::Variable(_) | Kind::BooleanVariable(_) | Kind::Function(_) => Ok(()),
    }
}

/// The lines of the entities, in the order of the object.
#[tactic(auto, unfolding(crate::specs::Report::entity_lines))]
pub(crate) fn put_entity_lines(
    out: &mut Vec<u8>,
    figures: &Figures,
    entities: &[Entity],
) -> Result<(), Memory>
    ensures { Puts result out.old out.new (entity_lines figures.now 0 entities.now) }
{
    for i in 0..entities.len() {
        put_lines_of(out, figures, i, &entities[i])?;
    }
    Ok(())
}
