//! What has to be known of the whole text before a line of it is written.

use crate::functions::{Function, Point};
use gw_text_tokens::is_spelled;
use std::alloc::Global;

/// The most FUNCTIONs, the most QTABLEs and the most distributions that are followed.
pub(crate) const MOST: usize = 500;

/// A QTABLE.
#[derive(Clone, Copy)]
pub(crate) struct QueueTable<'a> {
    /// Its name.
    pub(crate) name: &'a [u8],
    /// The name of its queue.
    pub(crate) queue: &'a [u8],
    /// Its line, from 0.
    pub(crate) at: usize,
}

/// What is known of a text.
#[derive(Drop)]
pub(crate) struct Plan<'a> {
    /// How many places behind the point times need: the factor is ten to the power of them.
    pub(crate) places: u32,
    /// The FUNCTIONs, in the order of the text.
    pub(crate) functions: Vec<Function<'a>>,
    /// Their points, one function's after the other's.
    pub(crate) points: Vec<Point>,
    /// The first QTABLE of each queue, in the order of the text.
    pub(crate) tables: Vec<QueueTable<'a>>,
    /// The line of the last START, from 0, if there is one.
    pub(crate) last_start: Option<usize>,
    /// How many `_` stand in new names, so that they are free.
    pub(crate) underscores: usize,
}

impl<'a> Plan<'a> {
    /// Nothing known.
    pub(crate) fn new(alloc: Global) -> Plan<'a> {
        Plan {
            places: 0,
            functions: Vec::new(alloc),
            points: Vec::new(alloc),
            tables: Vec::new(alloc),
            last_start: None,
            underscores: 0,
        }
    }

    /// The place of the FUNCTION of a name, if there is one.
    pub(crate) fn function(&self, name: &[u8]) -> Option<usize> {
        self.functions
            .iter()
            .position(|function| is_spelled(function.name, name))
    }

    /// The FUNCTION on whose lines a line lies, from 0, if there is one.
    pub(crate) fn function_on(&self, at: usize) -> Option<usize> {
        self.functions
            .iter()
            .position(|function| function.first <= at && at <= function.last)
    }

    /// The points of a function.
    pub(crate) fn points_of(&self, function: &Function<'_>) -> &[Point] {
        self.points
            .get(function.from..function.from.saturating_add(function.count))
            .unwrap_or(&[])
    }
}
