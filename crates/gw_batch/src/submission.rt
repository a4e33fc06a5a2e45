//! Submitting jobs of a batch.

ghost use Rattle.std.specs.Prelude.{◌≡◌, ◌+◌, ◌<◌, ◌^◌, IfOk, OnErr, length};
ghost use Rattle.gw_batch.specs.Batch.{Object};
ghost use Rattle.gw_batch.specs.Waiting.{waiting_entry};
ghost use Rattle.gw_batch.specs.Tickets.{user_of, IsTicket, IsTicketFor};
ghost use Rattle.gw_batch.specs.Windows.{Submits};

use crate::refusals::want_of_memory;
use crate::room::{has_room, need_of};
use crate::ticket::Ticket;
use crate::waiting::Waiting;
use gw_answers::{NoJob, refusal_of_job, spec_of};
use gw_object::Memory;
use gw_pool::{Shared, submit};
use gw_scan::Spec;
use std::alloc::Global;
use std::collections::VecDeque;
use std::sync::ledger::Ledger;
use std::sync::{Mutex, Wait};

/// So many entries, one after the other, are of one user: as many of a user's jobs may run at once.
const ENTRIES_OF_A_USER: usize = 16;

/// The user of an entry.
fn user(number: usize) -> u64
    ensures { result ≡ user_of number }
{
    (number / ENTRIES_OF_A_USER) as u64
}

/// Submits the job that the entry with this number has.
fn submitted<R: Ledger, S: Ledger, W: Wait>(
    rt: &W,
    alloc: Global,
    table: &Mutex<Shared<R, S>>,
    number: usize,
    spec: Spec,
) -> Ticket
    ensures { IsTicketFor number spec result }
{
    match submit(rt, alloc, table, user(number), spec) {
        Ok(pass) => Ticket::Submitted(pass),
        Err((spec, fault)) => {
            drop(spec);
            Ticket::Refused(refusal_of_job(fault))
        }
    }
}

/// Submits the job of an object, which is the entry with this number, if it has one, and adds what it is taken to need.
fn ticket_of_object<R: Ledger, S: Ledger, W: Wait>(
    rt: &W,
    alloc: Global,
    table: &Mutex<Shared<R, S>>,
    number: usize,
    bytes: &[u8],
    need: &mut usize,
) -> Ticket
    ensures { IsTicket number (Object bytes.now) result }
{
    match spec_of(alloc, 0, 0, bytes) {
        Ok(spec) => {
            *need = need.saturating_add(need_of(&spec, bytes.len()));
            submitted(rt, alloc, table, number, spec)
        }
        Err(NoJob::Refused(refusal)) => Ticket::Refused(refusal),
        Err(NoJob::OutOfMemory) => Ticket::Refused(want_of_memory()),
    }
}

/// The ticket of the entry with this number: of an object, that of its job. The bytes of the object are let go.
fn ticket_of<R: Ledger, S: Ledger, W: Wait>(
    rt: &W,
    alloc: Global,
    table: &Mutex<Shared<R, S>>,
    number: usize,
    waiting: Waiting,
    need: &mut usize,
) -> Ticket
    ensures { IsTicket number (waiting_entry waiting) result }
{
    match waiting {
        Waiting::Object(bytes) => ticket_of_object(rt, alloc, table, number, &bytes, need),
        Waiting::Broken(line) => Ticket::Broken(line),
    }
}

/// Submits the jobs of the entries that wait, from the first on, which has this number, while there is room: one at least, and as
/// many as there are workers. Each of these entries has a ticket then, and waits no more. Where memory is wanted for the list of
/// tickets all wait as they did.
pub(crate) fn submit_some<R: Ledger, S: Ledger, W: Wait>(
    rt: &W,
    alloc: Global,
    table: &Mutex<Shared<R, S>>,
    workers: u32,
    first: usize,
    waiting: &mut VecDeque<Waiting>,
) -> Result<VecDeque<Ticket>, Memory>
    requires fits { first + length waiting.old.items < 2 ^ 64 }
    ensures tickets { IfOk result (λ tickets.
        Submits first waiting.old.items waiting.new.items tickets.items) }
    ensures all { IfOk result (λ tickets.
        length tickets.items + length waiting.new.items ≡ length waiting.old.items) }
    ensures some { IfOk result (λ tickets.
        0 < length waiting.old.items → 0 < length tickets.items) }
    ensures same { OnErr result (waiting.new ≡ waiting.old) }
{
    let mut tickets = VecDeque::with_capacity(alloc, waiting.len())?;
    let mut need = 0;
    while has_room(workers, tickets.len(), need) {
        match waiting.pop_front() {
            Some(entry) => {
                let number = first + tickets.len();
                let ticket = ticket_of(rt, alloc, table, number, entry, &mut need);
                tickets.push_back_reserved(ticket);
            }
            None => return Ok(tickets),
        }
    }
    Ok(tickets)
}
