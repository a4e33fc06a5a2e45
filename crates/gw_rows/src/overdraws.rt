//! Streams from which a run may have drawn more numbers than are their own, as a field: `RN1=2200001/2097136`, with blanks between
//! them, and nothing where there are none.

ghost use Rattle.std.specs.Prelude.{◌≡◌, ◌++◌, IfOk, OnOk};
ghost use Rattle.std.specs.List.{All};
ghost use Rattle.gw_rows.specs.Reading.{IsStreamInRange, ReadsStreamField, ReadsStreams};
ghost use Rattle.gw_rows.specs.Rows as model;
ghost use Rattle.gw_rows.specs.Rows.{lent_texts};

use crate::amounts::{number_in, whole_in};
use crate::parts::{behind_first, parts_of, split_at_byte};
use gw_figures::Overdraw;
use gw_object::Memory;
use gw_writing::{put, put_number};
use std::alloc::Global;

/// A stream, and how many numbers were drawn of how many.
#[tactic(auto, unfolding(crate::specs::Rows::overdraw_text))]
fn put_overdraw(out: &mut Vec<u8>, overdraw: Overdraw) -> Result<(), Memory>
    ensures text { OnOk result (out.new.items ≡ out.old.items ++ model.overdraw_text overdraw) }
    ensures range { OnOk result (IsStreamInRange overdraw) }
{
    put_number(out, "RN", overdraw.stream)?;
    put_number(out, "=", overdraw.most)?;
    put_number(out, "/", overdraw.own)
}

/// What stands before the one at a place.
fn put_between(out: &mut Vec<u8>, place: usize) -> Result<(), Memory>
    ensures { OnOk result (out.new.items ≡ out.old.items ++ model.between place) }
{
    if place == 0 { Ok(()) } else { put(out, " ") }
}

/// The field of streams.
#[tactic(auto, unfolding(crate::specs::Rows::overdraws_text))]
pub(crate) fn overdraws_field(alloc: Global, overdraws: &[Overdraw]) -> Result<Vec<u8>, Memory>
    ensures field { IfOk result (λ field. field.items ≡ model.overdraws_text 0 overdraws.now) }
    ensures range { OnOk result (All IsStreamInRange overdraws.now) }
{
    let mut field = Vec::new(alloc);
    for i in 0..overdraws.len() {
        put_between(&mut field, i)?;
        put_overdraw(&mut field, overdraws[i])?;
    }
    Ok(field)
}

/// The stream that a text tells. One that isn't the text of any stream gives another's.
fn overdraw_in(text: &[u8]) -> Overdraw
    ensures { (o : Overdraw) → IsStreamInRange o → text.now ≡ model.overdraw_text o → result ≡ o }
{
    let (stream, numbers) = split_at_byte(text, b'=');
    let (most, own) = split_at_byte(numbers, b'/');
    Overdraw {
        stream: number_in(behind_first(behind_first(stream))).min(u64::from(u8::MAX)) as u8,
        most: whole_in(most),
        own: number_in(own),
    }
}

/// The streams that texts tell.
fn overdraws_of(alloc: Global, texts: &[&[u8]]) -> Result<Vec<Overdraw>, Memory>
    ensures { IfOk result (λ told. ReadsStreams (lent_texts texts.now) told.items) }
{
    let mut overdraws = Vec::new(alloc);
    for i in 0..texts.len() {
        overdraws.push(overdraw_in(texts[i]))?;
    }
    Ok(overdraws)
}

/// The streams that a field tells. A field that isn't that of any gives another's.
pub(crate) fn overdraws_in(alloc: Global, field: &[u8]) -> Result<Vec<Overdraw>, Memory>
    ensures { IfOk result (λ told. ReadsStreamField field.now told.items) }
{
    if field.is_empty() {
        return Ok(Vec::new(alloc));
    }
    let texts = parts_of(alloc, field, b' ')?;
    overdraws_of(alloc, &texts)
}
