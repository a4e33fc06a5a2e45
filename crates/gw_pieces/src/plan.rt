//! What the pieces of a model text are made by: its names with their numbers, and its procedures in order.

ghost use Rattle.gw_pieces.specs.Pieces.{IsPlan};

use crate::origins::Origin;
use gw_names::{Names, Sighted};
use gw_text::Model;

/// What the pieces of a model text are made by.
#[derive(Drop)]
pub(crate) struct Plan<'a> {
    /// The text.
    pub(crate) text: &'a Model,
    /// Its names, with their numbers.
    pub(crate) names: Names,
    /// Where its procedures come from, in the order of their numbers.
    pub(crate) order: Vec<Origin>,
    /// The entities of which it speaks, in order of first sight.
    pub(crate) sighted: Vec<Sighted>,
    /// These are the names, the origins and the entities of the text.
    ghost planned: { IsPlan text.now.statements.items names order.items sighted.items },
}
