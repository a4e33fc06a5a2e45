//! The rows that were read so far.

ghost use Rattle.std.specs.Prelude.{◌≡◌, ◌≤◌, ◌<◌, ◌^◌, ◌+◌, ◌++◌, ◌∷◌, ◌≢◌, [], true, slice_get, None, vec_len, is_some, IfNone, IfOk, IfSome, IsTrue, OnOk};
ghost use Rattle.std.specs.List.{insert};
ghost use Rattle.gw_rows.specs.Reading.{IsInRange};
ghost use Rattle.gw_summary.specs.Keeping.{HaveSame, IsHeader, Takes, kept_lines, waiting_lines};
ghost use Rattle.gw_summary.specs.Studies as model;
ghost use Rattle.gw_summary.specs.StudyRows.{StudyRuns, IsHeld, TakesLineOf};
ghost use Rattle.gw_summary.specs.Holding.{is_called, AddsLineOf, AddsPoint, AddsRowOf, BeginsStudy, BeginsWith};
ghost use Rattle.gw_summary.specs.Holding.{FindsHeaderOf, HasNoFault, HasNoPointOf, PlacesRowsOf, Succeeds};
ghost use Rattle.gw_summary.specs.Holding.{TakesAllRowsOf, TakesNamedRow, TakesReadRow, TakesRowBefore, TakesRowBehind};
ghost use Rattle.gw_summary.specs.Holding.{TakesRowOf, TakesRowsOf};
ghost use Rattle.gw_summary.specs.declared.rows.Wrong.TheVariants as wrongs;

use crate::fault::{NoRow, RowFault};
use crate::parameters::{Numbers, are_alike, is_before, numbers_in};
use crate::point::{Adding, PointRows};
use crate::study::Study;
use gw_figures::Figure;
use gw_object::Memory;
use gw_rows::{Origin, Refused, Row, figures_in, is_refusal_header, refused_in, row_in};
use std::alloc::Global;
use std::mem;

/// Why a line isn't taken.
#[derive(Drop)]
pub(crate) enum Wrong {
    /// It is refused.
    Fault(RowFault),
    /// Memory ran out.
    Memory,
}

impl From<Memory> for Wrong {
    ghost from_gives = { λ _ wrong. wrong ≡ wrongs.Memory };

    fn from(_: Memory) -> Wrong {
        Wrong::Memory
    }
}

/// A line that waits for a header.
#[derive(Drop)]
struct Waiting {
    /// Its number, from 1.
    number: u64,
    /// The line, without its line feed.
    line: Vec<u8>,
}

/// The rows of one study that were read so far.
#[derive(Drop)]
pub struct Rows {
    /// The number of the line at hand, from 1.
    number: u64,
    /// The lines before the first header of runs, which wait for it.
    waiting: Vec<Waiting>,
    /// The first header of runs, without its line feed.
    header: Vec<u8>,
    /// What it names.
    figures: Vec<Figure>,
    /// What the rows have in common, once there is one.
    study: Option<Study>,
    /// The points, in the order of their numbers.
    points: Vec<PointRows>,
    /// The place of the point to which the last row belongs.
    place: usize,
    /// The refusal of the model, if a row told one.
    refused: Option<Refused>,
    /// How many rows of runs there are.
    count: u64,
}

/// A point before the one at a place.
fn insert_point(points: &mut Vec<PointRows>, place: usize, point: PointRows) -> Result<(), Wrong>
    requires { place ≤ vec_len points.old }
    ensures items { OnOk result (points.new.items ≡ insert points.old.items place point) }
    ensures len { OnOk result (vec_len points.new ≡ vec_len points.old + 1) }
    ensures memory { Succeeds result (λ _. points.new.items ≡ insert points.old.items place point) }
{
    match points.insert(place, point) {
        Ok(()) => Ok(()),
        Err(_) => Err(Wrong::Memory),
    }
}

/// A line behind those that wait.
fn push_waiting(lines: &mut Vec<Waiting>, line: Waiting) -> Result<(), Wrong>
    ensures items { OnOk result (lines.new.items ≡ lines.old.items ++ line ∷ []) }
    ensures memory { Succeeds result (λ _. lines.new.items ≡ lines.old.items ++ line ∷ []) }
{
    match lines.push(line) {
        Ok(()) => Ok(()),
        Err(_) => Err(Wrong::Memory),
    }
}

impl Rows {
    /// No row.
    pub fn new(alloc: Global) -> Rows
        ensures none { kept_lines result ≡ [] }
        ensures study { (s : StudyRuns) → IsHeld s result }
    {
        Rows {
            number: 0,
            waiting: Vec::new(alloc),
            header: Vec::new(alloc),
            figures: Vec::new(alloc),
            study: None,
            points: Vec::new(alloc),
            place: 0,
            refused: None,
            count: 0,
        }
    }

    /// The points, in the order of their numbers.
    pub(crate) fn points(&self) -> &[PointRows]
        ensures { result.now ≡ self.now.points.items }
    {
        &self.points
    }

    /// The header of runs, without its line feed.
    pub(crate) fn header(&self) -> &[u8]
        ensures { result.now ≡ self.now.header.items }
    {
        &self.header
    }

    /// What the rows have in common, if there is one.
    pub(crate) fn study(&self) -> &Option<Study>
        ensures { result.now ≡ self.now.study }
    {
        &self.study
    }

    /// What was refused, if a row tells that.
    pub(crate) fn refused(&self) -> &Option<Refused>
        ensures { result.now ≡ self.now.refused }
    {
        &self.refused
    }

    /// How many rows of runs there are, each counted once.
    pub(crate) fn count(&self) -> u64 {
        self.count
    }

    /// The first header of runs.
    fn begin(&mut self, alloc: Global, line: &[u8], figures: Vec<Figure>) -> Result<(), Wrong>
        ensures same { OnOk result (HaveSame self.old self.new) }
        ensures header { Succeeds result (λ _. BeginsWith line.now figures self.old self.new) }
    {
        let mut header = Vec::new(alloc);
        header.extend_from_slice(line)?;
        self.header = header;
        self.figures = figures;
        Ok(())
    }

    /// A line that may be a header of runs; none where it isn't one.
    fn add_header(&mut self, alloc: Global, line: &[u8]) -> Result<bool, Wrong>
        ensures same { OnOk result (HaveSame self.old self.new) }
        ensures header { IfOk result (λ found. IsTrue found → IsHeader line.now) }
        ensures study { (s : StudyRuns) → FindsHeaderOf s line.now result self.old self.new }
    {
        match figures_in(alloc, line)? {
            Some(figures) => {
                if self.header.is_empty() {
                    self.begin(alloc, line, figures)?;
                } else if self.header.as_slice() != line {
                    drop(figures);
                    return Err(Wrong::Fault(RowFault::OtherFigures));
                }
                Ok(true)
            }
            None => Ok(false),
        }
    }

    /// Whether a digest is that of the model of the rows before, or the first.
    fn is_of_model(&self, digest: &[u8]) -> bool
        ensures { result ≡ model.is_of_model self.now.study self.now.refused digest.now }
    {
        match (&self.study, &self.refused) {
            (Some(study), _) => study.origin.model.as_slice() == digest,
            (None, Some(refused)) => refused.model.as_slice() == digest,
            (None, None) => true,
        }
    }

    /// What of a row isn't that of the rows before, if anything isn't.
    fn fault_of(&self, origin: &Origin, names: &[Vec<u8>]) -> Option<RowFault>
        ensures { (s : StudyRuns) → HasNoFault s origin.now names.now self.now result }
    {
        if !self.is_of_model(&origin.model) {
            return Some(RowFault::OtherModel);
        }
        match &self.study {
            Some(study) => {
                if !study.origin.is_of_study(origin) {
                    Some(RowFault::OtherStudy)
                } else if !are_alike(&study.names, names) {
                    Some(RowFault::OtherNames)
                } else {
                    None
                }
            }
            None => None,
        }
    }

    /// Whether the point at a place is called so.
    fn is_at(&self, place: usize, name: &[u8]) -> bool
        ensures within { IsTrue result → place < vec_len self.now.points }
        ensures called { result ≡ is_called (slice_get self.now.points.items place) name.now }
    {
        match self.points.get(place) {
            Some(point) => point.name.as_slice() == name,
            None => false,
        }
    }

    /// The place of a point, if it is there.
    fn place_of(&self, name: &[u8]) -> Option<usize>
        ensures within { IfSome result (λ place. place < vec_len self.now.points) }
        ensures none { IfNone result (HasNoPointOf name.now self.now.points.items) }
    {
        if self.is_at(self.place, name) {
            return Some(self.place);
        }
        for place in 0..self.points.len() {
            if self.is_at(place, name) {
                return Some(place);
            }
        }
        None
    }

    /// Where a point of these numbers belongs.
    fn place_for(&self, values: &[i64]) -> usize
        ensures { result ≤ vec_len self.now.points }
    {
        for place in 0..self.points.len() {
            if is_before(values, &self.points[place].values) {
                return place;
            }
        }
        self.points.len()
    }

    /// A point without a row.
    fn add_point(&mut self, alloc: Global, name: &[u8], values: Vec<i64>) -> Result<usize, Wrong>
        ensures place { IfOk result (λ place. place < vec_len self.new.points) }
        ensures same { OnOk result (HaveSame self.old self.new) }
        ensures added { Succeeds result (λ _. AddsPoint name.now self.old self.new) }
    {
        let place = self.place_for(&values);
        let mut copy = Vec::new(alloc);
        copy.extend_from_slice(name)?;
        let point = PointRows {
            name: copy,
            values,
            lines: Vec::new(alloc),
        };
        insert_point(&mut self.points, place, point)?;
        Ok(place)
    }

    /// The line of a run of the point at a place.
    fn add_at(&mut self, alloc: Global, place: usize, number: u32, line: &[u8]) -> Result<(), Wrong>
        requires { (place < vec_len self.old.points) × (number < 512) }
        ensures takes { OnOk result (Takes (line.now ∷ []) self.old self.new) }
        ensures study { (s : StudyRuns) → AddsRowOf s number line.now result self.old self.new }
    {
        self.place = place;
        match self.points[place].add(alloc, number, line)? {
            Adding::New => {
                self.count = self.count.saturating_add(1);
                Ok(())
            }
            Adding::Again => Ok(()),
            Adding::Unlike => Err(Wrong::Fault(RowFault::Unlike)),
        }
    }

    /// The place of a point of these numbers, which is there then.
    fn place_with(&mut self, alloc: Global, name: &[u8], values: Vec<i64>) -> Result<usize, Wrong>
        ensures place { IfOk result (λ place. place < vec_len self.new.points) }
        ensures same { OnOk result (HaveSame self.old self.new) }
        ensures study { (s : StudyRuns) → PlacesRowsOf s name.now result self.old self.new }
    {
        match self.place_of(name) {
            Some(place) => {
                drop(values);
                Ok(place)
            }
            None => self.add_point(alloc, name, values),
        }
    }

    /// What rows have in common, if this one is the first.
    fn begin_study(&mut self, origin: Origin, names: Vec<Vec<u8>>)
        requires { (1 ≤ origin.count) × (origin.count ≤ 2 ^ 40) }
        ensures others { self.new ≡ record self.old { study = self.new.study } }
        ensures study { (s : StudyRuns) → BeginsStudy s origin names.items self.old self.new }
    {
        if self.study.is_none() {
            self.study = Some(Study { origin, names });
        }
    }

    /// The row of a study that has these names, and its line.
    fn add_of_study(
        &mut self,
        alloc: Global,
        row: Row,
        numbers: Numbers,
        line: &[u8],
    ) -> Result<(), Wrong>
        requires { IsInRange row }
        ensures takes { OnOk result (Takes (line.now ∷ []) self.old self.new) }
        ensures study { (s : StudyRuns) →
            TakesNamedRow s numbers.names.items row line.now result self.old self.new }
    {
        let Numbers { names, values } = numbers;
        let place = self.place_with(alloc, &row.origin.point, values)?;
        let number = row.number;
        self.begin_study(row.origin, names);
        self.add_at(alloc, place, number, line)
    }

    /// A row and its line.
    fn add_row(&mut self, alloc: Global, row: Row, line: &[u8]) -> Result<(), Wrong>
        requires { IsInRange row }
        ensures takes { OnOk result (Takes (line.now ∷ []) self.old self.new) }
        ensures study { (s : StudyRuns) → TakesReadRow s row line.now result self.old self.new }
    {
        match numbers_in(alloc, &row.origin.point)? {
            Some(numbers) => match self.fault_of(&row.origin, &numbers.names) {
                Some(fault) => Err(Wrong::Fault(fault)),
                None => self.add_of_study(alloc, row, numbers, line),
            },
            None => Err(Wrong::Fault(RowFault::Form)),
        }
    }

    /// A refusal.
    fn add_refused(&mut self, refused: Refused) -> Result<(), Wrong>
        ensures same { OnOk result (kept_lines self.new ≡ kept_lines self.old) }
        ensures refused { OnOk result (is_some self.new.refused ≡ true) }
    {
        if !self.is_of_model(&refused.model) {
            return Err(Wrong::Fault(RowFault::OtherModel));
        }
        match &self.refused {
            Some(known) => {
                if known.text.as_slice() == refused.text.as_slice() {
                    Ok(())
                } else {
                    Err(Wrong::Fault(RowFault::Unlike))
                }
            }
            None => {
                self.refused = Some(refused);
                Ok(())
            }
        }
    }

    /// A line behind a header of runs: a row, or a refusal.
    fn add_behind(&mut self, alloc: Global, line: &[u8]) -> Result<(), Wrong>
        ensures takes { OnOk result (Takes (line.now ∷ []) self.old self.new) }
        ensures study { (s : StudyRuns) → TakesRowBehind s line.now result self.old self.new }
    {
        match row_in(alloc, line, &self.figures)? {
            Some(row) => self.add_row(alloc, row, line),
            None => match refused_in(alloc, line)? {
                Some(refused) => self.add_refused(refused),
                None => Err(Wrong::Fault(RowFault::Form)),
            },
        }
    }

    /// A line before any header of runs: a refusal, or it waits.
    fn add_before(&mut self, alloc: Global, line: &[u8]) -> Result<(), Wrong>
        ensures takes { OnOk result (Takes (line.now ∷ []) self.old self.new) }
        ensures study { (s : StudyRuns) → TakesRowBefore s line.now result self.old self.new }
    {
        match refused_in(alloc, line)? {
            Some(refused) => self.add_refused(refused),
            None => self.wait(alloc, line),
        }
    }

    /// A line that waits for a header.
    fn wait(&mut self, alloc: Global, line: &[u8]) -> Result<(), Wrong>
        ensures takes { OnOk result (Takes (line.now ∷ []) self.old self.new) }
        ensures study { (s : StudyRuns) → TakesRowBefore s line.now result self.old self.new }
    {
        let mut copy = Vec::with_capacity(alloc, line.len())?;
        copy.extend_from_slice(line)?;
        let waiting = Waiting {
            number: self.number,
            line: copy,
        };
        push_waiting(&mut self.waiting, waiting)
    }

    /// A line that is no header.
    fn add_other(&mut self, alloc: Global, line: &[u8]) -> Result<(), Wrong>
        ensures takes { OnOk result (Takes (line.now ∷ []) self.old self.new) }
        ensures study { (s : StudyRuns) → TakesRowOf s line.now result self.old self.new }
    {
        if self.header.is_empty() {
            self.add_before(alloc, line)
        } else {
            self.add_behind(alloc, line)
        }
    }

    /// The lines that waited.
    fn add_waiting(&mut self, alloc: Global, waiting: &[Waiting]) -> Result<(), Wrong>
        ensures takes { OnOk result (Takes (waiting_lines waiting.now) self.old self.new) }
        ensures study { (s : StudyRuns) → TakesRowsOf s waiting.now result self.old self.new }
    {
        for i in 0..waiting.len() {
            self.number = waiting[i].number;
            self.add_behind(alloc, &waiting[i].line)?;
        }
        Ok(())
    }

    /// The lines that waited, once there is a header.
    fn add_all_waiting(&mut self, alloc: Global) -> Result<(), Wrong>
        ensures takes { OnOk result (Takes [] self.old self.new) }
        ensures study { (s : StudyRuns) → TakesAllRowsOf s result self.old self.new }
    {
        let waiting = mem::replace(&mut self.waiting, Vec::new(alloc));
        self.add_waiting(alloc, &waiting)
    }

    /// One more line: a header, or a row.
    fn add(&mut self, alloc: Global, line: &[u8]) -> Result<(), Wrong>
        ensures takes { OnOk result (Takes (line.now ∷ []) self.old self.new) }
        ensures study { (s : StudyRuns) → AddsLineOf s line.now result self.old self.new }
    {
        if is_refusal_header(line) {
            return Ok(());
        }
        if self.add_header(alloc, line)? {
            self.add_all_waiting(alloc)
        } else {
            self.add_other(alloc, line)
        }
    }

    /// One more line by its number, without its line feed: a header, or a row with the fields that the header names. A row that is
    /// there already changes nothing; one before any header waits for it. Where a line is refused, it is this one, or one that
    /// waited.
    pub fn add_line(&mut self, alloc: Global, number: u64, line: &[u8]) -> Result<(), NoRow>
        ensures takes { OnOk result (Takes (line.now ∷ []) self.old self.new) }
        ensures study { (s : StudyRuns) → TakesLineOf s line.now result self.old self.new }
    {
        self.number = number;
        match self.add(alloc, line) {
            Ok(()) => Ok(()),
            Err(Wrong::Fault(fault)) => Err(NoRow::Fault(self.number, fault)),
            Err(Wrong::Memory) => Err(NoRow::Memory),
        }
    }

    /// The number of the first line that waits for a header, if one does.
    pub(crate) fn first_waiting(&self) -> Option<u64>
        ensures none { IfNone result (self.now.waiting.items ≡ []) }
        ensures some { IfSome result (λ _. self.now.waiting.items ≢ []) }
    {
        match self.waiting.as_slice() {
            [waiting, ..] => Some(waiting.number),
            [] => None,
        }
    }
}
