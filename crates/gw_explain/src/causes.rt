//! Why a round has no weight certificate, and which way out of it fits, in words.

use crate::known::{Flow, block_of, name_of, put_parameter_of};
use gw_object::{Block, Memory, Mode, Operand};
use gw_rounds::{Cause, Hindrance};
use gw_writing::{put, put_number};

/// A parameter, as an ASSIGN names it.
fn put_name_of(out: &mut Vec<u8>, flow: Flow<'_>, parameter: u8) -> Result<(), Memory> {
    match name_of(flow.names, parameter) {
        Some(name) => put(out, name),
        None => put_number(out, "", parameter),
    }
}

/// The block that keeps weights from counting.
fn block_by(by: Hindrance) -> u16 {
    match by {
        Hindrance::ChangedWithin(block)
        | Hindrance::ChangedBefore(block)
        | Hindrance::MembersCome(block)
        | Hindrance::CopiesCome(block)
        | Hindrance::CopiesWithin(block)
        | Hindrance::OtherCounter(block, _)
        | Hindrance::TooMany(block) => block,
    }
}

/// The blocks that a cause names, by their numbers from 1; 0 stands for none.
pub(crate) fn named_blocks(cause: Cause) -> [u16; 2] {
    match cause {
        Cause::Endless => [0, 0],
        Cause::SendsBack(block) | Cause::MayTakeNone(block) => [block, 0],
        Cause::OtherCall { transfer, call } => [transfer, call],
        Cause::Members { link, unlink } => [link, unlink],
        Cause::Hindered { counter, by, .. } => [counter, block_by(by)],
    }
}

/// What a block does to the parameter that it changes: the words before that and behind it.
fn change_by(block: Option<&Block>) -> (&'static str, &'static str) {
    match block {
        Some(Block::Assign(assign)) => match (assign.mode, assign.value) {
            (Mode::Set, Operand::Constant(_)) => (" sets ", " anew\n"),
            (Mode::Set, _) => (" sets ", " to what is no plain number\n"),
            (Mode::Add, _) => (" adds to ", "\n"),
            (Mode::Subtract, _) => (" subtracts from ", "\n"),
        },
        Some(Block::Mark(_)) => (" sets ", " to the clock\n"),
        Some(Block::Plus(_)) => (" sets ", " to what it evaluates\n"),
        Some(Block::TransferToSubroutine(_)) => {
            (" keeps in ", " where a subroutine goes back to\n")
        }
        _ => (" changes ", "\n"),
    }
}

/// That a block changes the parameter of a LOOP, and how.
fn put_change(
    out: &mut Vec<u8>,
    flow: Flow<'_>,
    parameter: u8,
    block: u16,
    place: &str,
) -> Result<(), Memory> {
    let (before, behind) = change_by(block_of(flow.parts.blocks.as_slice(), block));
    put_number(out, ", and block ", block)?;
    put(out, place)?;
    put(out, before)?;
    put_parameter_of(out, flow.names, parameter)?;
    put(out, behind)
}

/// That a block stands in the way, and how.
fn put_other(out: &mut Vec<u8>, block: u16, how: &str) -> Result<(), Memory> {
    put_number(out, ", and block ", block)?;
    put(out, how)
}

/// How many entries a round of a LOOP counts for, which is how many blocks there are.
fn put_entries(out: &mut Vec<u8>, flow: Flow<'_>) -> Result<(), Memory> {
    let count = flow.parts.blocks.as_slice().len();
    put_number(out, ": each round counts for ", count)?;
    put(
        out,
        " entries of blocks, and before time passes there may be 1,000,000,000 at most\n",
    )
}

/// What keeps weights from counting the rounds of a LOOP.
fn put_hindrance(
    out: &mut Vec<u8>,
    flow: Flow<'_>,
    parameter: u8,
    by: Hindrance,
) -> Result<(), Memory> {
    match by {
        Hindrance::ChangedWithin(block) => {
            put_change(out, flow, parameter, block, ", on the round too,")
        }
        Hindrance::ChangedBefore(block) => put_change(out, flow, parameter, block, ""),
        Hindrance::MembersCome(block) => put_other(
            out,
            block,
            " sends members of a user chain there, with any number in it\n",
        ),
        Hindrance::CopiesCome(block) => {
            put_other(out, block, " sends copies there, which go round as often\n")
        }
        Hindrance::CopiesWithin(block) => put_other(
            out,
            block,
            ", on the round too, makes copies, which may be too many for each round\n",
        ),
        Hindrance::OtherCounter(block, other) => {
            put_number(out, ", and block ", block)?;
            put(out, " as often as ")?;
            put_parameter_of(out, flow.names, other)?;
            put(out, " says: one parameter alone can count rounds\n")
        }
        Hindrance::TooMany(_) => put_entries(out, flow),
    }
}

/// By which parameter a LOOP goes back, and what keeps weights from counting by it.
fn put_hindered(
    out: &mut Vec<u8>,
    flow: Flow<'_>,
    counter: u16,
    parameter: u8,
    by: Hindrance,
) -> Result<(), Memory> {
    put_number(out, "known: block ", counter)?;
    put(out, " goes back as often as ")?;
    put_parameter_of(out, flow.names, parameter)?;
    put(out, " says")?;
    put_hindrance(out, flow, parameter, by)
}

/// Why a round has no certificate, in a line; of one on which nothing counts, and nothing waits, no more is said.
pub(crate) fn put_cause(out: &mut Vec<u8>, flow: Flow<'_>, cause: Cause) -> Result<(), Memory> {
    match cause {
        Cause::Endless => Ok(()),
        Cause::SendsBack(block) => {
            put_number(out, "known: block ", block)?;
            put(out, " sends back at once whom it doesn't let in\n")
        }
        Cause::MayTakeNone(block) => {
            put_number(out, "known: the ADVANCE of block ", block)?;
            put(out, " may take no time\n")
        }
        Cause::OtherCall { transfer, call } => {
            put_number(out, "known: block ", transfer)?;
            put_number(
                out,
                " may go back to behind any call of its subroutine, as behind block ",
                call,
            )?;
            put(out, ", so that one call behind another makes a round\n")
        }
        Cause::Members { link, unlink } => {
            put_number(out, "known: members whom block ", unlink)?;
            put_number(
                out,
                " lets go may join the user chain again at block ",
                link,
            )?;
            put(out, "\n")
        }
        Cause::Hindered {
            counter,
            parameter,
            by,
        } => put_hindered(out, flow, counter, parameter, by),
    }
}

/// That a parameter is to be set otherwise.
fn put_setting(out: &mut Vec<u8>, flow: Flow<'_>, parameter: u8, how: &str) -> Result<(), Memory> {
    put(out, "here: set ")?;
    put_parameter_of(out, flow.names, parameter)?;
    put(out, how)
}

/// That a parameter is to be set to a plain number somewhere, as by such an ASSIGN.
fn put_constant(
    out: &mut Vec<u8>,
    flow: Flow<'_>,
    parameter: u8,
    place: &str,
) -> Result<(), Memory> {
    put_setting(out, flow, parameter, " to a plain number ")?;
    put(out, place)?;
    put(out, ", as ASSIGN ")?;
    put_name_of(out, flow, parameter)?;
    put(out, ",3")
}

/// The way out for a LOOP whose rounds weights can't count.
fn put_way_to_count(
    out: &mut Vec<u8>,
    flow: Flow<'_>,
    parameter: u8,
    by: Hindrance,
) -> Result<(), Memory> {
    match by {
        Hindrance::ChangedWithin(_) => {
            let how = " to a plain number before the round, and let nothing else on it change it";
            put_setting(out, flow, parameter, how)
        }
        Hindrance::ChangedBefore(_) => {
            put_constant(out, flow, parameter, "before the round")?;
            let most = ", or to the most rounds that there can be, and leave the round by a TEST";
            put(out, most)
        }
        Hindrance::MembersCome(_) => {
            put_constant(out, flow, parameter, "where they come, before the round")
        }
        Hindrance::CopiesCome(block) => {
            put_number(out, "here: let block ", block)?;
            put(out, " stand before ")?;
            put_parameter_of(out, flow.names, parameter)?;
            put(out, " is set, or send its copies elsewhere")
        }
        Hindrance::CopiesWithin(block) => {
            put_number(out, "here: let block ", block)?;
            put(out, " make fewer copies")
        }
        Hindrance::OtherCounter(_, _) => {
            put(
                out,
                "here: where the one round is behind the other, count both by ",
            )?;
            put_parameter_of(out, flow.names, parameter)
        }
        Hindrance::TooMany(_) => {
            let how = " to a smaller number, or let fewer copies come to the round";
            put_setting(out, flow, parameter, how)
        }
    }
}

/// The way out of a round that fits, in a line.
pub(crate) fn put_way_out(out: &mut Vec<u8>, flow: Flow<'_>, cause: Cause) -> Result<(), Memory> {
    match cause {
        Cause::Endless => put(
            out,
            "here: let an ADVANCE that takes at least 1, as ADVANCE 1, stand on this round; waiting at another block counts as no time.\n",
        ),
        Cause::SendsBack(block) => {
            put_number(out, "here: leave out the label at the end of block ", block)?;
            put(
                out,
                ", so that they wait there; or let an ADVANCE that takes at least 1 stand on the way back.\n",
            )
        }
        Cause::MayTakeNone(block) => {
            put_number(out, "here: let block ", block)?;
            put(
                out,
                " take at least 1 for sure, as ADVANCE 3,2 does: two plain numbers, and the second is less; or let an ADVANCE 1 stand beside it.\n",
            )
        }
        Cause::OtherCall { .. } => put(
            out,
            "here: let an ADVANCE that takes at least 1 stand in the subroutine or between its calls; or write its blocks out in place of a call.\n",
        ),
        Cause::Members { link, unlink } => {
            put_number(out, "here: ask before block ", unlink)?;
            put_number(
                out,
                " whether they may go on, so that none joins again; or let an ADVANCE that takes at least 1 stand before block ",
                link,
            )?;
            put(out, ".\n")
        }
        Cause::Hindered { parameter, by, .. } => {
            put_way_to_count(out, flow, parameter, by)?;
            put(
                out,
                "; or let an ADVANCE that takes at least 1 stand on the round.\n",
            )
        }
    }
}
