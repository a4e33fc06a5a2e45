//! Telling the entries of a batch, part by part.

ghost use Rattle.std.specs.Prelude.{◌≡◌, ◌+◌, ◌≤◌, ◌<◌, ◌^◌, ◌++◌, ◌||◌, false, length, vec_len, vec_capacity, IfOk, OnOk, IfErr};
ghost use Rattle.gw_streams.specs.Streams.{MarksFailure};
ghost use Rattle.gw_console.specs.Output.{WritesText};
ghost use Rattle.gw_batch.specs.Parts.{job_line};
ghost use Rattle.gw_batch.specs.Tickets.{TellsTicket};
ghost use Rattle.gw_batch.specs.Writing as model;
ghost use Rattle.gw_batch.specs.Told.{part_of, told_text, told_refused};
ghost use Rattle.gw_batch.specs.Windows.{HaltsAtTickets, TellsTickets};

use crate::ticket::Ticket;
use crate::told::{Told, told_refusal};
use gw_answers::refusal_of_job;
use gw_console::{ProgramFault, write_text};
use gw_object::Memory;
use gw_pool::{Shared, reply_to};
use gw_streams::Output;
use itoa::Buffer;
use std::alloc::Global;
use std::collections::VecDeque;
use std::io::Write;
use std::marker::Model;
use std::sync::ledger::Ledger;
use std::sync::{Mutex, Wait};

/// What is told of a ticket: the report of its job, or why there is none.
fn told_of<R: Ledger, S: Ledger, W: Wait>(
    rt: &W,
    alloc: Global,
    table: &Mutex<Shared<R, S>>,
    ticket: Ticket,
) -> Told
    ensures { TellsTicket ticket (told_text result) (told_refused result) }
{
    match ticket {
        Ticket::Submitted(pass) => match reply_to(rt, alloc, table, &pass) {
            Ok(reply) => Told::Report(reply.report),
            Err(fault) => told_refusal(alloc, refusal_of_job(fault)),
        },
        Ticket::Refused(refusal) => told_refusal(alloc, refusal),
        Ticket::Broken(line) => Told::Refusal(line.into_text()),
    }
}

/// The bytes that the line above what is told of an entry may have.
const BYTES_OF_A_LINE: usize = 64;

/// Adds to a text for which there is room.
fn put(text: &mut Vec<u8>, more: &[u8])
    requires { vec_len text.old + length more.now ≤ vec_capacity text.old }
    ensures items { text.new.items ≡ text.old.items ++ more.now }
    ensures len { vec_len text.new ≡ vec_len text.old + length more.now }
    ensures room { vec_capacity text.old ≤ vec_capacity text.new }
{
    if text.extend_from_slice(more).is_err() {
        unreachable!();
    }
}

/// Makes a text that has room the line above what is told of the entry with this number.
fn put_line(line: &mut Vec<u8>, number: usize)
    requires { 64 ≤ vec_capacity line.old }
    ensures line { line.new.items ≡ job_line number }
    ensures room { vec_capacity line.old ≤ vec_capacity line.new }
{
    let mut digits = Buffer::new();
    let number = digits.format(number);
    line.clear();
    put(line, b"JOB ");
    put(line, number.as_bytes());
    put(line, b"\n");
}

/// Writes a line, and what is told behind it.
fn write_part<O: Write>(
    writer: &mut Output<O>,
    line: &[u8],
    told: &[u8],
) -> Result<(), ProgramFault>
    requires { writer.old.failed ≡ false }
    ensures bytes { WritesText (line.now ++ told.now) result writer.old.held writer.new.held }
    ensures marks { MarksFailure result writer.old.failed writer.new.failed }
{
    write_text(writer, line)?;
    write_text(writer, told)
}

/// How far a batch is told: how many entries are, and whether one of them was refused. It has the room for the line of the next,
/// so that telling an entry takes no memory. Contracts see it as the two.
#[derive(Drop)]
pub(crate) struct Telling {
    line: Vec<u8>,
    number: usize,
    refused: bool,
}

impl Model for Telling {
    ghost use Rattle.std.specs.Prelude.{◌≤◌, vec_capacity};
    ghost use Rattle.gw_batch.specs.Writing as model;

    ghost Value = { model.Telling };

    ghost view = { λ t. model.telling_of t.number t.refused };

    ghost invariant = { λ t. 64 ≤ vec_capacity t.line };
}

impl Telling {
    /// That of a batch of which nothing is told yet.
    pub(crate) fn new(alloc: Global) -> Result<Telling, Memory>
        ensures { IfOk result (λ telling. telling ≡ model.telling_of 0 false) }
    {
        let line = Vec::with_capacity(alloc, BYTES_OF_A_LINE)?;
        Ok(Telling {
            line,
            number: 0,
            refused: false,
        })
    }

    /// The number of the next entry.
    pub(crate) fn number(&self) -> usize
        ensures { result ≡ self.now.number }
    {
        self.number
    }

    /// Whether an entry was refused.
    pub(crate) fn has_refused(&self) -> bool
        ensures { result ≡ self.now.refused }
    {
        self.refused
    }

    /// Tells the next entry.
    pub(crate) fn tell<O: Write>(
        &mut self,
        writer: &mut Output<O>,
        told: Told,
    ) -> Result<(), ProgramFault>
        requires writer { writer.old.failed ≡ false }
        requires fits { self.old.number + 1 < 2 ^ 64 }
        ensures number { OnOk result (self.new.number ≡ self.old.number + 1) }
        ensures refused { OnOk result (self.new.refused ≡ self.old.refused || told_refused told) }
        ensures bytes { WritesText (part_of self.old.number told) result
            writer.old.held writer.new.held }
        ensures marks { MarksFailure result writer.old.failed writer.new.failed }
    {
        put_line(&mut self.line, self.number);
        write_part(writer, &self.line, told.text())?;
        self.refused = either(self.refused, told.is_refused());
        self.number += 1;
        Ok(())
    }
}

/// Whether one of two texts has a refusal.
fn either(one: bool, other: bool) -> bool
    ensures { result ≡ one || other }
{
    one || other
}

/// Tells all tickets, in order.
pub(crate) fn tell_all<R: Ledger, S: Ledger, W: Wait, O: Write>(
    rt: &W,
    alloc: Global,
    table: &Mutex<Shared<R, S>>,
    mut tickets: VecDeque<Ticket>,
    telling: &mut Telling,
    writer: &mut Output<O>,
) -> Result<(), ProgramFault>
    requires writer { writer.old.failed ≡ false }
    requires fits { telling.old.number + length tickets.items < 2 ^ 64 }
    ensures advances { TellsTickets result telling.old telling.new tickets.items
        writer.old writer.new }
    ensures halts { HaltsAtTickets result telling.old tickets.items writer.old writer.new }
    ensures fault { IfErr result (λ fault. fault ≡ ProgramFault.Write) }
    ensures number { OnOk result (telling.new.number ≡ telling.old.number + length tickets.items) }
    ensures marks { MarksFailure result writer.old.failed writer.new.failed }
{
    while let Some(ticket) = tickets.pop_front() {
        let told = told_of(rt, alloc, table, ticket);
        telling.tell(writer, told)?;
    }
    Ok(())
}
