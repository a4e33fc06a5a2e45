//! One case: what it gives, what it asks, and whether what came is what was wanted.

ghost use Rattle.std.specs.Prelude.{◌≡◌, ◌<◌, length, IsTrue, OnOk};
ghost use Rattle.gw_cases.specs.Cases.{case_passes};

use crate::acts::answer;
use crate::bytes::put_line;
use crate::objects::{Kind, Source};
use crate::rows::put_number;
use crate::stop::Stop;
use crate::words::{first_meaning, number, words_of};
use std::alloc::{AllocError, Global};

/// The budget of jobs, where a case gives none: that of the program `gpssw`.
const BUDGET: u64 = 1_000_000_000;

/// What a line of a script says of a case.
#[derive(Clone, Copy)]
enum Section {
    /// Its text.
    Text,
    /// More of its text, many times.
    Times,
    /// More bytes of its text.
    Hex,
    /// The bytes of its object.
    Object,
    /// A change of the object's parts.
    Patch,
    /// A change of the object's spelling.
    Splice,
    /// The budget of its jobs.
    Budget,
    /// Something that is to be done.
    Act,
}

/// The words with which lines begin that ask for nothing.
const SECTIONS: &[(&[u8], Section)] = &[
    (b"case", Section::Text),
    (b"times", Section::Times),
    (b"hex", Section::Hex),
    (b"object", Section::Object),
    (b"set", Section::Patch),
    (b"splice", Section::Splice),
    (b"budget", Section::Budget),
];

/// What the words of a line say, and those behind the first one.
fn section_of<'a, 'b>(words: &'b [&'a [u8]]) -> (Section, &'b [&'a [u8]]) {
    match first_meaning(SECTIONS, words) {
        Ok(found) => found,
        Err(_) => (Section::Act, words),
    }
}

/// A case, as far as its lines were read.
#[derive(Drop)]
pub struct Case<'a> {
    source: Source<'a>,
    budget: u64,
    /// Whether something was asked.
    has_asked: bool,
    /// What came otherwise than it was wanted, in lines.
    differences: Vec<u8>,
}

/// Whether what came is what was wanted.
pub fn is_met(wanted: &[u8], came: &[u8]) -> bool
    ensures met { IsTrue result → came.now ≡ wanted.now }
    ensures exactly { came.now ≡ wanted.now → IsTrue result }
{
    wanted == came
}

/// Appends the lines that aren't empty, each with an LF behind it.
fn put_lines(out: &mut Vec<u8>, lines: &[&[u8]]) -> Result<(), AllocError> {
    for line in lines {
        if !line.is_empty() {
            out.extend_from_slice(line)?;
            out.push(b'\n')?;
        }
    }
    Ok(())
}

/// Appends lines, and the number in the place of each `{}` in them.
fn put_numbered(
    alloc: Global,
    out: &mut Vec<u8>,
    lines: &[&[u8]],
    number: u64,
) -> Result<(), AllocError> {
    for line in lines {
        for byte in line.iter() {
            match *byte {
                b'{' => put_number(alloc, out, b"", number)?,
                b'}' => {}
                other => out.push(other)?,
            }
        }
        out.push(b'\n')?;
    }
    Ok(())
}

/// Appends lines, each behind four blanks.
fn put_indented(out: &mut Vec<u8>, text: &[u8]) -> Result<(), AllocError> {
    for line in text.split(|byte| *byte == b'\n') {
        if !line.is_empty() {
            out.extend_from_slice(b"    ")?;
            out.extend_from_slice(line)?;
            out.push(b'\n')?;
        }
    }
    Ok(())
}

/// What came otherwise than it was wanted, in lines below the one that asked for it.
fn difference(
    alloc: Global,
    line: &[u8],
    wanted: &[u8],
    came: &[u8],
) -> Result<Vec<u8>, AllocError> {
    let mut text = Vec::new(alloc);
    text.extend_from_slice(line)?;
    text.extend_from_slice(b"\n  wanted:\n")?;
    put_indented(&mut text, wanted)?;
    text.extend_from_slice(b"  came:\n")?;
    put_indented(&mut text, came)?;
    Ok(text)
}

impl<'a> Case<'a> {
    /// A case of which nothing was read.
    pub fn new(alloc: Global) -> Case<'a> {
        Case {
            source: Source {
                kind: Kind::Text,
                bytes: Vec::new(alloc),
                patches: Vec::new(alloc),
                splices: Vec::new(alloc),
            },
            budget: BUDGET,
            has_asked: false,
            differences: Vec::new(alloc),
        }
    }

    /// Whether something was asked, and all came as it was wanted.
    pub fn passes(&self) -> bool
        ensures { result ≡ case_passes self.now }
    {
        self.has_asked && self.differences.is_empty()
    }

    /// What came otherwise than it was wanted.
    pub fn differences(&self) -> &[u8] {
        self.differences.as_slice()
    }

    /// Adds the bytes that lines spell.
    fn add_hex(&mut self, alloc: Global, lines: &[&[u8]]) -> Result<(), Stop> {
        for line in lines {
            put_line(alloc, &mut self.source.bytes, line)?;
        }
        Ok(())
    }

    /// Adds lines to the text, so many times.
    fn add_times(&mut self, alloc: Global, times: u64, lines: &[&[u8]]) -> Result<(), Stop> {
        for i in 0..times {
            put_numbered(alloc, &mut self.source.bytes, lines, i + 1)?;
        }
        Ok(())
    }

    /// Adds lines to the text, as many times as a word says.
    fn add_times_of(&mut self, alloc: Global, times: &[u8], lines: &[&[u8]]) -> Result<(), Stop> {
        self.add_times(alloc, number(times)?, lines)
    }

    /// Begins an object, with the bytes that lines spell.
    fn begin_object(&mut self, alloc: Global, lines: &[&[u8]]) -> Result<(), Stop> {
        self.source.kind = Kind::Object;
        self.source.bytes.clear();
        self.add_hex(alloc, lines)
    }

    /// Adds a change of the object's parts.
    fn add_patch(&mut self, line: &'a [u8]) -> Result<(), Stop> {
        self.source.patches.push(behind(line, b"% set"))?;
        Ok(())
    }

    /// Adds a change of the object's spelling.
    fn add_splice(&mut self, line: &'a [u8]) -> Result<(), Stop> {
        self.source.splices.push(behind(line, b"% splice"))?;
        Ok(())
    }

    /// Changes the budget of jobs to what a word says.
    fn set_budget(&mut self, budget: &[u8]) -> Result<(), Stop> {
        self.budget = number(budget)?;
        Ok(())
    }

    /// Takes note that something came otherwise than it was wanted.
    fn note(
        &mut self,
        alloc: Global,
        line: &[u8],
        wanted: &[u8],
        came: &[u8],
    ) -> Result<(), AllocError>
        ensures { OnOk result (0 < length self.new.differences.items) }
    {
        let text = difference(alloc, line, wanted, came)?;
        self.differences.extend_from_slice(b"  ")?;
        self.differences.extend_from_slice(text.as_slice())
    }

    /// Does what a line asks for, and compares what comes with these lines.
    fn ask(
        &mut self,
        alloc: Global,
        line: &[u8],
        words: &[&[u8]],
        lines: &[&[u8]],
    ) -> Result<(), Stop> {
        let mut wanted = Vec::new(alloc);
        put_lines(&mut wanted, lines)?;
        let mut came = Vec::new(alloc);
        answer(alloc, &mut came, &self.source, self.budget, words)?;
        self.has_asked = true;
        if is_met(wanted.as_slice(), came.as_slice()) {
            Ok(())
        } else {
            self.note(alloc, line, wanted.as_slice(), came.as_slice())?;
            Ok(())
        }
    }

    /// Reads what a line of the script says, and the lines below it that belong to it:
    ///
    /// - `case NAME`: the lines of the model text;
    /// - `times N`: more lines of the text, N times, with the number from 1 on in the place of each `{}`;
    /// - `hex`: more bytes of the text, in hexadecimal digits;
    /// - `object`: the bytes of an object in place of a text, in hexadecimal digits;
    /// - `set ..`: a change of the object's parts; `splice ..`: one of its spelling;
    /// - `budget N`: at most how many steps a job makes;
    /// - anything else is done, and the lines are what must come.
    fn read(
        &mut self,
        alloc: Global,
        line: &'a [u8],
        words: &[&[u8]],
        lines: &[&[u8]],
    ) -> Result<(), Stop> {
        match section_of(words) {
            (Section::Text, _) => self.add_times(alloc, 1, lines),
            (Section::Times, [times]) => self.add_times_of(alloc, times, lines),
            (Section::Hex, []) => self.add_hex(alloc, lines),
            (Section::Object, []) => self.begin_object(alloc, lines),
            (Section::Patch, _) => self.add_patch(line),
            (Section::Splice, _) => self.add_splice(line),
            (Section::Budget, [budget]) => self.set_budget(budget),
            _ => self.ask(alloc, line, words, lines),
        }
    }

    /// Reads a section of the script: a line that begins with `%`, and the lines below it.
    pub fn read_section(
        &mut self,
        alloc: Global,
        line: &'a [u8],
        lines: &[&[u8]],
    ) -> Result<(), AllocError> {
        let words = words_of(alloc, behind(line, b"%"))?;
        match self.read(alloc, line, words.as_slice(), lines) {
            Ok(()) => Ok(()),
            Err(Stop::Memory) => Err(AllocError),
            Err(_) => self.note(alloc, line, b"a line that is known", b"what no case has"),
        }
    }
}

/// What stands in a line behind so many bytes as a word has.
pub fn behind<'a>(line: &'a [u8], word: &[u8]) -> &'a [u8] {
    match line.get(word.len()..) {
        Some(rest) => rest,
        None => &[],
    }
}
