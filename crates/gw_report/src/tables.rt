//! The lines of a table.

ghost use Rattle.gw_writing.specs.Text.{Puts};
ghost use Rattle.gw_report.specs.Report.{class_line, class_lines, table_lines};

use crate::figures::Figures;
use crate::text::put_name;
use gw_object::Memory;
use gw_writing::{put, put_number};

fn put_class_line(out: &mut Vec<u8>, class: usize, values: u64) -> Result<(), Memory>
    ensures { Puts result out.old out.new (class_line class values) }
{
    put_number(out, "CLASS ", class)?;
    put_number(out, " ", values)?;
    put(out, "\n")
}

/// A line for each class, in order.
#[tactic(auto, unfolding(crate::specs::Report::class_lines))]
fn put_class_lines(out: &mut Vec<u8>, classes: &[u64]) -> Result<(), Memory>
    ensures { Puts result out.old out.new (class_lines 0 classes.now) }
{
    for i in 0..classes.len() {
        put_class_line(out, i, classes[i])?;
    }
    Ok(())
}

/// The lines of the table of a number and a name.
pub(crate) fn put_table_lines(
    out: &mut Vec<u8>,
    figures: &Figures,
    number: usize,
    name: &[u8],
) -> Result<(), Memory>
    ensures { Puts result out.old out.new (table_lines figures.now number name.now) }
{
    let table = figures.entity(number).table;
    put_name(out, "TABLE ", name)?;
    put_number(out, " COUNT ", table.count)?;
    put_number(out, " SUM ", table.sum)?;
    put(out, "\n")?;
    put_class_lines(out, figures.classes(number))
}
