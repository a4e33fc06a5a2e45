//! What is left as it is, and what is still refused.

use gw_assemble::assemble;
use gw_forms::find_form;
use gw_object::{Fault, Place, codes};
use gw_source_lines::sources;
use gw_text::{Model, parse};
use std::alloc::{AllocError, Global};

/// The most refusals that are told.
const MOST_TOLD: usize = 20;

/// A refusal of the text that was written.
#[derive(Clone, Copy)]
pub struct Told {
    /// The refusal.
    pub fault: Fault,
    /// The number of its line, from 1; 0 where it has none.
    pub line: u32,
}

/// Whether a line is refused; then what form it has that is left out, and what stands in its place here, behind what there is, if one is
/// known.
pub(crate) fn put_form(alloc: Global, out: &mut Vec<u8>, line: &[u8]) -> Result<bool, AllocError> {
    let fault = match parse(alloc, line) {
        Ok(model) => {
            drop(model);
            return Ok(false);
        }
        Err(fault) => fault,
    };
    if fault.code == codes::MEMORY {
        return Err(AllocError);
    }
    match find_form(alloc, line, fault.code)? {
        Some(found) => {
            out.extend_from_slice(found.form.name.as_bytes())?;
            out.extend_from_slice(b": ")?;
            out.extend_from_slice(found.form.here.as_bytes())?;
            Ok(true)
        }
        None => Ok(true),
    }
}

/// Takes a line, by its number from 1, out of a text: blanks stand in its place.
fn blank_line(text: &mut [u8], number: u32) {
    let mut begins = 0usize;
    let mut length = 0usize;
    let mut at = 0u32;
    for byte in text.iter() {
        if at >= number {
            break;
        }
        if at.saturating_add(1) == number {
            length = length.saturating_add(1);
        } else {
            begins = begins.saturating_add(1);
        }
        if *byte == b'\n' {
            at = at.saturating_add(1);
        }
    }
    for place in begins..begins.saturating_add(length) {
        if let Some(byte) = text.get_mut(place)
            && *byte != b'\n'
        {
            *byte = b' ';
        }
    }
}

/// The line of a refusal of a model that can be read; 0 where it has none.
fn line_of(alloc: Global, model: &Model, fault: Fault) -> Result<u32, AllocError> {
    let sources = sources(alloc, model)?;
    let line = match fault.place {
        Place::Line(number) => Some(number),
        Place::Block(number) | Place::Edge(number, _) => sources
            .blocks
            .get((number as usize).saturating_sub(1))
            .copied(),
        Place::Entity(number) | Place::Chain(number) => {
            sources.entities.get(number as usize).copied()
        }
        Place::Code(procedure, _) => sources.procedures.get(procedure as usize).copied(),
        _ => None,
    };
    Ok(line.unwrap_or(0))
}

/// The refusal of a model that can be read, if it is refused.
fn fault_of_model(alloc: Global, model: &Model) -> Result<Option<Told>, AllocError> {
    match assemble(alloc, model) {
        Ok(verified) => {
            drop(verified);
            Ok(None)
        }
        Err(fault) if fault.code == codes::MEMORY => Err(AllocError),
        Err(fault) => {
            let line = line_of(alloc, model, fault)?;
            Ok(Some(Told { fault, line }))
        }
    }
}

/// Reads a text, and takes out the line at fault, if there is one.
fn next_fault(
    alloc: Global,
    text: &mut Vec<u8>,
    is_whole: bool,
) -> Result<Option<Told>, AllocError> {
    match parse(alloc, text) {
        Ok(model) => {
            let told = if is_whole {
                fault_of_model(alloc, &model)
            } else {
                Ok(None)
            };
            drop(model);
            told
        }
        Err(fault) if fault.code == codes::MEMORY => Err(AllocError),
        Err(fault) => {
            let line = match fault.place {
                Place::Line(number) => number,
                _ => 0,
            };
            blank_line(text, line);
            Ok(Some(Told { fault, line }))
        }
    }
}

/// What of a text is refused: each line that can't be read, at most so many as are told; or, where all can be read, the refusal of the model.
pub(crate) fn faults_of(alloc: Global, text: &[u8]) -> Result<Vec<Told>, AllocError> {
    let mut left = Vec::new(alloc);
    left.extend_from_slice(text)?;
    let mut faults: Vec<Told> = Vec::new(alloc);
    for _fault in 0..MOST_TOLD {
        match next_fault(alloc, &mut left, faults.is_empty())? {
            Some(told) => {
                faults.push(told)?;
                if !matches!(told.fault.place, Place::Line(_)) {
                    return Ok(faults);
                }
            }
            None => return Ok(faults),
        }
    }
    Ok(faults)
}
