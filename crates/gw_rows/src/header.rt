//! The line that says what the fields of rows are.

ghost use Rattle.std.specs.Prelude.{◌≡◌, ◌↔◌, ◌++◌, map, IfOk, OnOk, IsTrue};
ghost use Rattle.gw_figures.specs.Labels.{label_of, labels};
ghost use Rattle.gw_rows.specs.Names as model;
ghost use Rattle.gw_rows.specs.Rows.{lent_texts, texts};
ghost use Rattle.gw_rows.specs.Reading.{FindsFigures, IsHeaderOf, IsLine};

use crate::parts::parts_of;
use crate::record::{copy_of, put_owned};
use gw_figures::Figure;
use gw_object::Memory;
use std::alloc::Global;

/// How many fields each row has before those of its figures.
pub(crate) const FIXED: usize = 9;

/// What stands before the name of an average or a content in the name of its change.
const TREND: &[u8] = b"TREND ";

/// Whether rows tell how a figure changes.
pub(crate) fn has_trend(figure: &Figure) -> bool
    ensures { result ≡ model.has_trend (label_of figure.now) }
{
    figure.average || figure.content
}

/// What the change of an average or a content is called.
fn trend_name(alloc: Global, name: &[u8]) -> Result<Vec<u8>, Memory>
    ensures { IfOk result (λ trend. trend.items ≡ model.trend_name name.now) }
{
    let mut trend = Vec::new(alloc);
    trend.extend_from_slice(TREND)?;
    trend.extend_from_slice(name)?;
    Ok(trend)
}

/// The names of what says of what a run is one.
fn put_source_names(alloc: Global, fields: &mut Vec<Vec<u8>>) -> Result<(), Memory>
    ensures { OnOk result (texts fields.new.items ≡ texts fields.old.items ++ model.source_names) }
{
    fields.push(copy_of(alloc, b"model")?)?;
    fields.push(copy_of(alloc, b"rows")?)?;
    fields.push(copy_of(alloc, b"point")?)?;
    fields.push(copy_of(alloc, b"count")?)?;
    fields.push(copy_of(alloc, b"from")?)?;
    Ok(())
}

/// The names of what says which run it is, and how it ended.
fn put_end_names(alloc: Global, fields: &mut Vec<Vec<u8>>) -> Result<(), Memory>
    ensures { OnOk result (texts fields.new.items ≡ texts fields.old.items ++ model.end_names) }
{
    fields.push(copy_of(alloc, b"run")?)?;
    fields.push(copy_of(alloc, b"end")?)?;
    fields.push(copy_of(alloc, b"steps")?)?;
    fields.push(copy_of(alloc, b"streams")?)?;
    Ok(())
}

/// The names of figures.
fn put_names(alloc: Global, fields: &mut Vec<Vec<u8>>, figures: &[Figure]) -> Result<(), Memory>
    ensures { OnOk result (texts fields.new.items
        ≡ texts fields.old.items ++ map (λ l. l.name) (labels figures.now)) }
{
    for i in 0..figures.len() {
        fields.push(copy_of(alloc, &figures[i].name)?)?;
    }
    Ok(())
}

/// The name of the change of a figure, where rows tell it.
fn put_trend(alloc: Global, fields: &mut Vec<Vec<u8>>, figure: &Figure) -> Result<(), Memory>
    ensures { OnOk result (texts fields.new.items
        ≡ texts fields.old.items ++ model.trend_of (label_of figure.now)) }
{
    if !has_trend(figure) {
        return Ok(());
    }
    fields.push(trend_name(alloc, &figure.name)?)?;
    Ok(())
}

/// The names of the changes of figures.
#[tactic(auto, unfolding(crate::specs::Names::trend_names))]
fn put_trends(alloc: Global, fields: &mut Vec<Vec<u8>>, figures: &[Figure]) -> Result<(), Memory>
    ensures { OnOk result (texts fields.new.items
        ≡ texts fields.old.items ++ model.trend_names (labels figures.now)) }
{
    for i in 0..figures.len() {
        put_trend(alloc, fields, &figures[i])?;
    }
    Ok(())
}

/// The line before rows of these figures, behind others: the names of all fields.
#[tactic(auto, unfolding(crate::specs::Names::header))]
pub fn put_header(alloc: Global, out: &mut Vec<u8>, figures: &[Figure]) -> Result<(), Memory>
    ensures { OnOk result (out.new.items ≡ out.old.items ++ model.header (labels figures.now)) }
{
    let mut fields = Vec::new(alloc);
    put_source_names(alloc, &mut fields)?;
    put_end_names(alloc, &mut fields)?;
    put_names(alloc, &mut fields, figures)?;
    put_trends(alloc, &mut fields, figures)?;
    put_owned(alloc, out, &fields)
}

/// Whether a text begins so.
fn begins(text: &[u8], front: &[u8]) -> bool
    ensures { result ≡ model.begins front.now text.now }
{
    text.len() >= front.len() && text.split_at(front.len()).0 == front
}

/// Whether a text ends so.
fn ends(text: &[u8], end: &[u8]) -> bool
    ensures { result ≡ model.ends end.now text.now }
{
    text.len() >= end.len() && text.split_at(text.len() - end.len()).1 == end
}

/// Whether a figure is told only where all are asked for: one of a block, a switch or a user chain.
fn is_detail(name: &[u8]) -> bool
    ensures { result ≡ model.is_detail name.now }
{
    begins(name, b"BLOCK ") || begins(name, b"SWITCH ") || begins(name, b"CHAIN ")
}

/// Whether a figure is an average: over time, over units or over values.
fn is_average(name: &[u8]) -> bool
    ensures { result ≡ model.is_average name.now }
{
    ends(name, b" UTIL") || ends(name, b" TIME") || ends(name, b" AVG") || ends(name, b" MEAN")
}

/// Whether a figure is how many are there at a moment: in a queue or a storage, or waiting for a facility or a storage.
fn is_content(name: &[u8]) -> bool
    ensures { result ≡ model.is_content name.now }
{
    !is_detail(name) && (ends(name, b" CONTENT") || ends(name, b" WAIT"))
}

/// The figure of a name.
fn figure_of(alloc: Global, name: &[u8]) -> Result<Figure, Memory>
    ensures { IfOk result (λ figure. label_of figure ≡ model.label_of_name name.now) }
{
    Ok(Figure {
        name: copy_of(alloc, name)?,
        main: !is_detail(name),
        average: is_average(name),
        content: is_content(name),
    })
}

/// The figures of names, up to the first change.
#[tactic(auto, unfolding(crate::specs::Names::labels_named))]
fn named_figures(alloc: Global, names: &[&[u8]]) -> Result<Vec<Figure>, Memory>
    ensures { IfOk result (λ figures. labels figures.items ≡ model.labels_named (lent_texts names.now)) }
{
    let mut figures = Vec::new(alloc);
    for i in 0..names.len() {
        if begins(names[i], TREND) {
            return Ok(figures);
        }
        figures.push(figure_of(alloc, names[i])?)?;
    }
    Ok(figures)
}

/// The figures that a line names, where it is the line before rows of them.
fn named_in(alloc: Global, line: &[u8]) -> Result<Vec<Figure>, Memory>
    ensures { IfOk result (λ figures. labels figures.items ≡ model.labels_in line.now) }
{
    let parts = parts_of(alloc, line, b',')?;
    if parts.len() < FIXED {
        return Ok(Vec::new(alloc));
    }
    let (_, names) = parts.split_at(FIXED);
    named_figures(alloc, names)
}

/// Whether a line is the one before rows of these figures.
fn is_header_of(alloc: Global, line: &[u8], figures: &[Figure]) -> Result<bool, Memory>
    ensures { IfOk result (λ is. IsTrue is ↔ IsHeaderOf line.now figures.now) }
{
    let mut again = Vec::new(alloc);
    put_header(alloc, &mut again, figures)?;
    Ok(is_line(line, &again))
}

/// The figures of rows behind a line without its line feed, if it is the line before rows of figures that are those of their names.
pub fn figures_in(alloc: Global, line: &[u8]) -> Result<Option<Vec<Figure>>, Memory>
    ensures { IfOk result (FindsFigures line.now) }
{
    if !begins(line, b"model,rows,") {
        return Ok(None);
    }
    let figures = named_in(alloc, line)?;
    if is_header_of(alloc, line, &figures)? {
        Ok(Some(figures))
    } else {
        Ok(None)
    }
}

/// Whether a text is a line and its line feed.
pub(crate) fn is_line(line: &[u8], text: &[u8]) -> bool
    ensures { IsTrue result ↔ IsLine line.now text.now }
{
    let (front, end) = text.split_at(text.len().saturating_sub(1));
    front == line && end == b"\n".as_slice()
}
