//! Statements, by their heads.

ghost use Rattle.std.specs.Prelude.{◌≡◌, ◌<◌, ◌≤◌, [], length, map, slice_index_or, string_bytes, true, None, Some, Ok, IfOk, MatchResult};
ghost use Rattle.gw_text_tokens.specs.Lines.{IsShort, AreShort};
ghost use Rattle.gw_text.specs.Knowing.{Labelled, Counts, AdmitsFirst, Knows, TakesLabel};
ghost use Rattle.gw_text.specs.Reading.{StaysWithin, StaysSingle};

use crate::model::Body;
use gw_text_expressions::Sna;
use gw_text_expressions::expressions::Expressions;
use gw_text_plus::read_procedure;
use gw_text_statements::functions::{function_of, read_points};
use gw_text_statements::statements::{Head, label_of, modifier_of, operands_by_word};
use gw_text_statements::{Modifier, Operand};
use gw_text_tokens::faults::{Lowest, Refusal, Stop, Where};
use gw_text_tokens::tokens::tokens_of;
use gw_text_tokens::words::Word;
use std::alloc::{AllocError, Global};
use std::collections::BTreeSet;

/// The most blocks of a text.
const MOST_BLOCKS: usize = 4096;

/// What is known of a text while it is read.
#[derive(Drop)]
pub(crate) struct Reader {
    /// The allocator.
    pub(crate) alloc: Global,
    expressions: Expressions,
    labels: BTreeSet<String>,
    blocks: usize,
    is_started: bool,
}

/// What stands on the first line of a statement.
#[derive(Drop)]
pub(crate) struct First {
    pub(crate) label: Option<String>,
    pub(crate) modifier: Option<Modifier>,
    pub(crate) operands: Vec<Operand>,
}

/// A statement that was read, but for its word and its first line.
#[derive(Drop)]
pub(crate) struct Read {
    /// What stands on its first line.
    pub(crate) first: First,
    /// What else there is of it.
    pub(crate) body: Body,
    /// Its last line, counted from 0.
    pub(crate) last: usize,
}

impl Reader {
    /// Before the first line.
    pub(crate) fn new(alloc: Global) -> Reader
        ensures { Knows result [] }
    {
        Reader {
            alloc,
            expressions: Expressions::new(alloc),
            labels: BTreeSet::new(alloc),
            blocks: 0,
            is_started: false,
        }
    }

    /// The label of a statement. Refusals are noted.
    fn label(&mut self, lowest: &mut Lowest, head: &Head<'_>) -> Result<Option<String>, AllocError>
        ensures label { IfOk result (λ label. lowest.new.found ≡ None
            → TakesLabel self.old self.new label) }
        ensures blocks { self.new.blocks ≡ self.old.blocks }
        ensures started { self.new.is_started ≡ self.old.is_started }
    {
        let Some(token) = head.label else {
            if head.word.is_named() {
                lowest.note(Refusal::Operand);
            }
            return Ok(None);
        };
        let label = label_of(self.alloc, token);
        let label = lowest.keep(label, String::new(self.alloc))?;
        if !add_label(&mut self.labels, label.clone()?)? {
            lowest.note(Refusal::Label);
        }
        Ok(Some(label))
    }

    /// Counts a block, and remembers START. Refusals are noted.
    fn count(&mut self, lowest: &mut Lowest, word: Word)
        requires { self.old.blocks ≤ 4096 }
        ensures counted { lowest.new.found ≡ None → Counts self.old self.new word }
        ensures clear { lowest.new.found ≡ None → lowest.old.found ≡ None }
    {
        let is_start = matches!(word, Word::Start);
        if word.is_block() {
            if self.blocks >= MOST_BLOCKS {
                lowest.note(Refusal::Limit);
            } else {
                self.blocks += 1;
            }
        }
        if self.is_started && (is_start || word.is_block()) {
            lowest.note(Refusal::Order);
        }
        self.is_started = self.is_started || is_start;
    }

    /// The first line of a statement, but of FUNCTION and PROCEDURE.
    fn first(&mut self, head: &Head<'_>) -> Result<First, Stop>
        requires { self.old.blocks ≤ 4096 }
        ensures { IfOk result (AdmitsFirst self.old self.new head.now.word) }
    {
        let tokens = tokens_of(self.alloc, head.rest)?;
        let mut known = Lowest::NONE;
        let label = self.label(&mut known, head)?;
        self.count(&mut known, head.word);
        let mut lowest = Lowest::NONE;
        let (modifier, tokens) = modifier_of(&mut lowest, head.word, tokens.as_slice());
        let operands = operands_by_word(&mut self.expressions, &mut lowest, head.word, tokens)?;
        lowest.and(known).check()?;
        Ok(First {
            label,
            modifier,
            operands,
        })
    }

    /// The first line of a FUNCTION, and how many points follow.
    fn first_of_function(&mut self, head: &Head<'_>) -> Result<(First, usize), Stop>
        ensures label { IfOk result (λ x. TakesLabel self.old self.new x.0.label) }
        ensures blocks { self.new.blocks ≡ self.old.blocks }
        ensures started { self.new.is_started ≡ self.old.is_started }
    {
        let tokens = tokens_of(self.alloc, head.rest)?;
        let mut known = Lowest::NONE;
        let label = self.label(&mut known, head)?;
        let mut lowest = Lowest::NONE;
        let (argument, count) = function_of(&mut self.expressions, &mut lowest, tokens.as_slice())?;
        lowest.and(known).check()?;
        let mut operands = Vec::new(self.alloc);
        operands.push(argument)?;
        let first = First {
            label,
            modifier: None,
            operands,
        };
        Ok((first, count))
    }

    /// A FUNCTION on line `i` and its points on those behind it. Lines count from 0 here.
    fn function(&mut self, head: &Head<'_>, lines: &[&[u8]], i: usize) -> Result<Read, Where>
        requires within { i < length lines.now }
        requires short { IsShort (slice_index_or (map (λ l. l.now) lines.now) i []) }
        ensures lines { StaysWithin i (length lines.now) result }
        ensures short { IfOk result (λ read. AreShort (map (λ l. l.now) lines.now) i read.last) }
        ensures label { IfOk result (λ read. TakesLabel self.old self.new read.first.label) }
        ensures blocks { self.new.blocks ≡ self.old.blocks }
        ensures started { self.new.is_started ≡ self.old.is_started }
    {
        let (first, count) = match self.first_of_function(head) {
            Ok(first) => first,
            Err(stop) => return Err((i, stop)),
        };
        let is_random = is_random(first.operands.as_slice());
        let (points, last) = read_points(self.alloc, lines, i, is_random, count)?;
        let body = Body::Points(points);
        Ok(Read { first, body, last })
    }

    /// A PROCEDURE that begins on line `i`. Lines count from 0 here.
    fn procedure(&mut self, head: &Head<'_>, lines: &[&[u8]], i: usize) -> Result<Read, Where>
        requires { i < length lines.now }
        ensures lines { StaysWithin i (length lines.now) result }
        ensures short { IfOk result (λ read. AreShort (map (λ l. l.now) lines.now) i read.last) }
        ensures label { IfOk result (λ read. TakesLabel self.old self.new read.first.label) }
        ensures blocks { self.new.blocks ≡ self.old.blocks }
        ensures started { self.new.is_started ≡ self.old.is_started }
    {
        if head.label.is_some() {
            return Err((i, Stop::Refused(Refusal::Operand)));
        }
        let (procedure, last) = read_procedure(self.alloc, &mut self.expressions, lines, i)?;
        let first = First {
            label: None,
            modifier: None,
            operands: Vec::new(self.alloc),
        };
        let body = Body::Procedure(procedure);
        Ok(Read { first, body, last })
    }

    /// The statement with this head, which begins on line `i`. Lines count from 0 here.
    pub(crate) fn statement(
        &mut self,
        head: &Head<'_>,
        lines: &[&[u8]],
        i: usize,
    ) -> Result<Read, Where>
        requires within { i < length lines.now }
        requires short { IsShort (slice_index_or (map (λ l. l.now) lines.now) i []) }
        requires few { self.old.blocks ≤ 4096 }
        ensures lines { StaysWithin i (length lines.now) result }
        ensures single { StaysSingle head.now.word i result }
        ensures short { IfOk result (λ read. AreShort (map (λ l. l.now) lines.now) i read.last) }
        ensures admits { IfOk result (λ read.
            AdmitsFirst self.old self.new head.now.word read.first) }
    {
        match head.word {
            Word::Function => self.function(head, lines, i),
            Word::Procedure => self.procedure(head, lines, i),
            _ => on_line(i, self.first(head)),
        }
    }
}

/// Adds a label to those of a text, and answers whether it is new.
fn add_label(labels: &mut BTreeSet<String>, label: String) -> Result<bool, AllocError>
    ensures { IfOk result (λ is_new. is_new ≡ true
        → Labelled labels.old labels.new (Some (string_bytes label))) }
{
    Ok(labels.insert(label)?)
}

/// A statement on this line alone, or its fault. Lines count from 0 here.
fn on_line(line: usize, first: Result<First, Stop>) -> Result<Read, Where>
    ensures last { MatchResult result (λ x. x.last ≡ line) (λ place. place.0 ≡ line) }
    ensures first { IfOk result (λ x. first ≡ Ok x.first) }
{
    match first {
        Ok(first) => Ok(Read {
            first,
            body: Body::Nothing,
            last: line,
        }),
        Err(stop) => Err((line, stop)),
    }
}

/// Whether the argument of a FUNCTION is random.
fn is_random(operands: &[Operand]) -> bool {
    matches!(operands, [Operand::Sna(Sna::Random(_))])
}
