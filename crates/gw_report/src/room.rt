//! How long a report is about.

use gw_object::{Kind, Parts};

/// About how many bytes a line of a block, or the first of an entity, takes.
const BYTES_OF_A_LINE: usize = 64;

/// About how many bytes the line of a class takes.
const BYTES_OF_A_CLASS: usize = 16;

/// About how many bytes the lines of an entity of this kind take.
fn bytes_of(kind: &Kind) -> usize {
    match kind {
        Kind::Table(table) => usize::from(table.classes) * BYTES_OF_A_CLASS + BYTES_OF_A_LINE,
        _ => BYTES_OF_A_LINE,
    }
}

/// About how many bytes the report of a job takes. It is no bound: numbers may be long.
pub(crate) fn bytes_about(parts: &Parts) -> usize {
    let mut bytes = parts
        .blocks
        .as_slice()
        .len()
        .saturating_mul(BYTES_OF_A_LINE)
        .saturating_add(BYTES_OF_A_LINE);
    for entity in parts.entities.as_slice() {
        bytes = bytes.saturating_add(bytes_of(&entity.kind));
    }
    bytes
}
