//! A round on which no time passes and that has no weight certificate, with the lines of its blocks, in words.

ghost use Rattle.std.specs.Prelude.{◌≡◌, slice_get};
ghost use Rattle.gw_writing.specs.Text.{Puts};
ghost use Rattle.gw_explain.specs.Rounds as model;

use crate::causes::{named_blocks, put_cause, put_way_out};
use crate::known::Flow;
use crate::lines::{Text, put_blocks};
use gw_object::{Memory, Place};
use gw_rounds::{Cause, Finding, Hindrance, find_round};
use gw_writing::{put, put_number};
use std::alloc::Global;

/// The most blocks of a round that are told.
const MOST_TOLD: usize = 10;

/// What is explained.
#[derive(Clone, Copy, PartialEq, Eq)]
pub(crate) enum Origin {
    /// A model text.
    Model,
    /// An object.
    Object,
}

/// As many blocks of a round as are told.
fn first_blocks(round: &[u16]) -> &[u16]
    ensures { result.now ≡ model.first_blocks round.now }
{
    if round.len() > MOST_TOLD {
        &round[..MOST_TOLD]
    } else {
        round
    }
}

/// Blocks, each with a comma behind it.
fn put_enumeration(out: &mut Vec<u8>, numbers: &[u16]) -> Result<(), Memory>
    ensures { Puts result out.old out.new (model.enumeration numbers.now) }
{
    for number in numbers {
        put_number(out, "block ", *number)?;
        put(out, ", ")?;
    }
    Ok(())
}

/// How many blocks a round has besides those that are told, if it has more.
fn put_others(out: &mut Vec<u8>, round: &[u16]) -> Result<(), Memory>
    ensures { Puts result out.old out.new (model.count_of_others round.now) }
{
    if round.len() > MOST_TOLD {
        put_number(out, "", round.len() - MOST_TOLD)?;
        put(out, " more, ")
    } else {
        Ok(())
    }
}

/// The first block of a round, if it has one.
fn first_of(round: &[u16]) -> Option<u16>
    ensures { result ≡ slice_get round.now 0 }
{
    round.first().copied()
}

/// What stands before the block to which a round comes back.
#[tactic(auto, unfolding(crate::specs::Rounds::return_title))]
fn put_return_title(out: &mut Vec<u8>) -> Result<(), Memory>
    ensures { Puts result out.old out.new model.return_title }
{
    put(out, "and back to block ")
}

/// Where a round comes back to, if it has a block, and the end of the line.
fn put_way_back(out: &mut Vec<u8>, first: Option<u16>) -> Result<(), Memory>
    ensures { Puts result out.old out.new (model.way_back_to first) }
{
    match first {
        Some(first) => {
            put_return_title(out)?;
            put_number(out, "", first)?;
            put(out, "\n")
        }
        None => put(out, "\n"),
    }
}

/// What stands before the blocks of a round.
#[tactic(auto, unfolding(crate::specs::Rounds::round_title))]
fn put_round_title(out: &mut Vec<u8>) -> Result<(), Memory>
    ensures { Puts result out.old out.new model.round_title }
{
    put(out, "known: this round may take no time: ")
}

/// A round, in a line.
#[tactic(auto, unfolding(crate::specs::Rounds::round_line))]
fn put_round_line(out: &mut Vec<u8>, round: &[u16]) -> Result<(), Memory>
    ensures { Puts result out.old out.new (model.round_line round.now) }
{
    put_round_title(out)?;
    put_enumeration(out, first_blocks(round))?;
    put_others(out, round)?;
    put_way_back(out, first_of(round))
}

/// And below it the lines of its blocks that are told.
fn put_shown_round(out: &mut Vec<u8>, text: &Text<'_>, round: &[u16]) -> Result<(), Memory>
    ensures { Puts result out.old out.new (model.round_in text.now round.now) }
{
    put_round_line(out, round)?;
    put_blocks(out, text, first_blocks(round))
}

/// Whether a block is among these.
fn has(numbers: &[u16], number: u16) -> bool {
    for one in numbers {
        if *one == number {
            return true;
        }
    }
    false
}

/// The lines of the blocks that a cause names, but for those that were shown.
fn put_named(out: &mut Vec<u8>, text: &Text<'_>, finding: &Finding) -> Result<(), Memory> {
    for number in named_blocks(finding.cause) {
        if !has(first_blocks(&finding.round), number) {
            put_blocks(out, text, &[number])?;
        }
    }
    Ok(())
}

/// What is said where no round is to blame, or none but for the weights that an object has.
fn put_weights(out: &mut Vec<u8>, origin: Origin) -> Result<(), Memory> {
    match origin {
        Origin::Model => put(
            out,
            "known: no round goes on for ever, but more than 1,000,000,000 blocks might be entered before time passes\nhere: let SPLITs make fewer copies, or let an ADVANCE that takes at least 1 stand between one SPLIT and the next.\n",
        ),
        Origin::Object => put(
            out,
            "known: no round goes on for ever: the weights of the object are too small, or would be above 1,000,000,000\nhere: assemble the model text again.\n",
        ),
    }
}

/// Whether a cause keeps all weights from passing, and not those alone that the assembler tries.
fn is_for_all(cause: Cause) -> bool {
    match cause {
        Cause::Hindered { by, .. } => match by {
            Hindrance::ChangedWithin(_) | Hindrance::ChangedBefore(_) | Hindrance::MembersCome(_) =>
                true,
            Hindrance::CopiesCome(_)
            | Hindrance::CopiesWithin(_)
            | Hindrance::OtherCounter(_, _)
            | Hindrance::TooMany(_) => false,
        },
        _ => true,
    }
}

/// A round, why it has no certificate, with the lines of the blocks, and the way out that fits.
fn put_finding(
    out: &mut Vec<u8>,
    flow: Flow<'_>,
    text: &Text<'_>,
    finding: &Finding,
) -> Result<(), Memory> {
    put_shown_round(out, text, &finding.round)?;
    put_cause(out, flow, finding.cause)?;
    put_named(out, text, finding)?;
    put_way_out(out, flow, finding.cause)
}

/// What is known where 40 or 41 was answered at a place: a round without a certificate, why it has none, and which way out fits.
pub(crate) fn put_round(
    alloc: Global,
    out: &mut Vec<u8>,
    flow: Flow<'_>,
    text: &Text<'_>,
    origin: Origin,
    place: Place,
) -> Result<(), Memory> {
    match find_round(alloc, flow.parts, place)? {
        Some(finding) if origin == Origin::Model || is_for_all(finding.cause) => {
            put_finding(out, flow, text, &finding)
        }
        _ => put_weights(out, origin),
    }
}
