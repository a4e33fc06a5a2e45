//! Lines out of the pieces in which an input is read.

ghost use Rattle.std.specs.Prelude.{◌≡◌, ◌≢◌, ◌∷◌, [], IsFalse, IsTrue, OnOk};
ghost use Rattle.gw_rows.specs.Reading.{IsWithoutFeed};
ghost use Rattle.gw_summary.specs.Keeping.{IsRead, ReadsBytes};
ghost use Rattle.gw_summary.specs.StudyRows.{StudyRuns, IsReadOf, ReadsOn};

use crate::fault::{NoRow, RowFault};
use crate::rows::Rows;
use gw_object::Memory;
use std::alloc::Global;

/// The most bytes of a line.
const LONGEST: usize = 1 << 24;

/// Rows, and the line that isn't whole yet.
#[derive(Drop)]
pub struct Pieces {
    rows: Rows,
    /// What there is of the next line.
    rest: Vec<u8>,
    /// How many lines were whole.
    lines: u64,
}

impl Pieces {
    /// Nothing was read.
    pub fn new(alloc: Global) -> Pieces
        ensures read { IsRead [] result }
        ensures study { (s : StudyRuns) → IsReadOf s [] result }
    {
        Pieces {
            rows: Rows::new(alloc),
            rest: Vec::new(alloc),
            lines: 0,
        }
    }

    /// The number of the line that isn't whole yet, from 1.
    pub fn line(&self) -> u64 {
        self.lines.saturating_add(1)
    }

    /// The rows.
    pub fn rows(&self) -> &Rows
        ensures { result.now ≡ self.now.rows }
    {
        &self.rows
    }

    /// What comes of the line that isn't whole.
    fn put(&mut self, bytes: &[u8]) -> Result<(), NoRow>
        requires { IsWithoutFeed bytes.now }
        ensures read { OnOk result (ReadsBytes bytes.now self.old self.new) }
        ensures study { (s : StudyRuns) → ReadsOn s bytes.now result self.old self.new }
    {
        if self.rest.len().saturating_add(bytes.len()) > LONGEST {
            return Err(NoRow::Fault(self.line(), RowFault::Long));
        }
        match self.rest.extend_from_slice(bytes) {
            Ok(()) => Ok(()),
            Err(Memory) => Err(NoRow::Memory),
        }
    }

    /// A line that is whole.
    fn end_line(&mut self, alloc: Global) -> Result<(), NoRow>
        ensures read { OnOk result (ReadsBytes (10 ∷ []) self.old self.new) }
        ensures study { (s : StudyRuns) → ReadsOn s (10 ∷ []) result self.old self.new }
    {
        self.rows
            .add_line(alloc, self.lines.saturating_add(1), &self.rest)?;
        self.rest.clear();
        self.lines = self.lines.saturating_add(1);
        Ok(())
    }

    /// One more piece of the input.
    pub fn add(&mut self, alloc: Global, piece: &[u8]) -> Result<(), NoRow>
        ensures read { OnOk result (ReadsBytes piece.now self.old self.new) }
        ensures study { (s : StudyRuns) → ReadsOn s piece.now result self.old self.new }
    {
        let mut start = 0;
        for i in 0..piece.len() {
            if piece[i] == b'\n' {
                self.put(&piece[start..i])?;
                self.end_line(alloc)?;
                start = i + 1;
            }
        }
        self.put(&piece[start..])
    }

    /// Whether the last line is cut off.
    pub fn is_cut(&self) -> bool
        ensures whole { IsFalse result → self.now.rest.items ≡ [] }
        ensures cut { IsTrue result → self.now.rest.items ≢ [] }
    {
        !self.rest.is_empty()
    }
}
