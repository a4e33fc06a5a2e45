//! The lines of the statements that procedures come from.

ghost use Rattle.std.specs.Prelude.{◌≡◌, OnOk, IfOk};
ghost use Rattle.gw_names.specs.Naming.{Knows};
ghost use Rattle.gw_pieces.specs.Lines as model;

use crate::origins::Origin;
use crate::planning::{line_of, order_of};
use gw_names::{Known, Ledger};
use gw_text::Model;
use std::alloc::{AllocError, Global};

/// The line of an origin, behind others.
fn put_line(lines: &mut Vec<u32>, text: &Model, origin: Origin) -> Result<(), AllocError>
    ensures { OnOk result (model.AddsLine text.now origin lines.old lines.new) }
{
    lines.push(line_of(text, origin)).map_err(|_| AllocError)
}

/// The lines of origins, in order.
fn lines_of(alloc: Global, text: &Model, order: &[Origin]) -> Result<Vec<u32>, AllocError>
    ensures { IfOk result (model.AreLines text.now order.now) }
{
    let mut lines = Vec::new(alloc);
    for i in 0..order.len() {
        put_line(&mut lines, text, order[i])?;
    }
    Ok(lines)
}

/// The lines of the statements that the procedures of a model text come from, in the order of the procedures, where the
/// names of the text are known. Where more come from it than an object has, those are among them too.
#[tactic(auto, unfolding(crate::specs::Lines::procedure_lines))]
pub fn procedure_lines(alloc: Global, text: &Model, known: &Known) -> Result<Vec<u32>, AllocError>
    requires { Knows text.now.statements.items known.now }
    ensures { IfOk result (λ lines. lines.items ≡ model.procedure_lines text.now.statements.items) }
{
    let order = order_of(alloc, text, known, &mut Ledger::new())?;
    lines_of(alloc, text, &order)
}
