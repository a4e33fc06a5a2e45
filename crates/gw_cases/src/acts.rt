//! What is done with a source, and what comes of it.

use crate::bytes::put_hex;
use crate::jobs::{Making, go_on, job_of, put_report, put_trace, put_view};
use crate::objects::{
    Kind, Source, assembled_object, model_of, object_of, settled_of, verified_of,
};
use crate::rows::{put_number, put_row_at, put_weights};
use crate::stop::Stop;
use crate::words::{first_meaning, number, number_u32, place};
use gw_answers::{Acceptance, Refusal};
use gw_object_bytes::write;
use gw_scan::Sim;
use std::alloc::{AllocError, Global};

/// More steps than any job makes.
const ALL: u64 = 1 << 41;

/// How many statements a text has.
fn statements_in(alloc: Global, source: &Source) -> Result<u64, Stop> {
    let model = model_of(alloc, source)?;
    let statements = model.statements.len() as u64;
    drop(model);
    Ok(statements)
}

/// The spelling of the object.
fn spelling_of(alloc: Global, source: &Source) -> Result<Vec<u8>, Stop> {
    let object = object_of(alloc, source)?;
    let bytes = write(alloc, &object);
    drop(object);
    Ok(bytes?)
}

/// Reads a text or an object: how many statements, or bytes, it has.
fn read_source(alloc: Global, out: &mut Vec<u8>, source: &Source) -> Result<(), Stop> {
    match source.kind {
        Kind::Text if source.splices.is_empty() && source.patches.is_empty() => {
            let statements = statements_in(alloc, source)?;
            put_number(alloc, out, b"read, statements ", statements)?;
        }
        _ => {
            let bytes = spelling_of(alloc, source)?;
            put_number(alloc, out, b"read, bytes ", bytes.len() as u64)?;
        }
    }
    out.push(b'\n')?;
    Ok(())
}

/// Assembles a text.
fn assemble_source(alloc: Global, out: &mut Vec<u8>, source: &Source) -> Result<(), Stop> {
    drop(assembled_object(alloc, source)?);
    out.extend_from_slice(b"assembled\n")?;
    Ok(())
}

/// Gives an object the assembler's state table.
fn settle_source(alloc: Global, out: &mut Vec<u8>, source: &Source) -> Result<(), Stop> {
    drop(settled_of(alloc, source)?);
    out.extend_from_slice(b"settled\n")?;
    Ok(())
}

/// The row of a block or of a user chain in the assembler's state table.
fn show_settled_row(
    alloc: Global,
    out: &mut Vec<u8>,
    source: &Source,
    name: &[u8],
) -> Result<(), Stop> {
    let settled = settled_of(alloc, source)?;
    let shown = put_row_at(alloc, out, &settled, name);
    drop(settled);
    shown
}

/// Verifies an object.
fn check_source(alloc: Global, out: &mut Vec<u8>, source: &Source) -> Result<(), Stop> {
    let verified = verified_of(alloc, source)?;
    let acceptance = Acceptance {
        blocks: verified.blocks(),
        procedures: verified.procedures(),
        weight: verified.heaviest(),
    };
    drop(verified);
    let line = format!(in alloc; "{acceptance}\n")?;
    out.extend_from_slice(line.as_bytes())?;
    Ok(())
}

/// The bytes of an object from one place to another.
fn show_bytes(
    alloc: Global,
    out: &mut Vec<u8>,
    source: &Source,
    from: &[u8],
    to: &[u8],
) -> Result<(), Stop> {
    let from = place(from)?;
    let to = place(to)?;
    let bytes = spelling_of(alloc, source)?;
    match bytes.as_slice().get(from..to) {
        Some(part) => {
            put_hex(out, part)?;
            out.push(b'\n')?;
            Ok(())
        }
        None => Err(Stop::Unknown),
    }
}

/// The weights of an object.
fn show_weights(alloc: Global, out: &mut Vec<u8>, source: &Source) -> Result<(), Stop> {
    let object = object_of(alloc, source)?;
    let shown = put_weights(alloc, out, object.parts());
    drop(object);
    Ok(shown?)
}

/// The row of a block or of a user chain.
fn show_row(alloc: Global, out: &mut Vec<u8>, source: &Source, name: &[u8]) -> Result<(), Stop> {
    let object = object_of(alloc, source)?;
    let shown = put_row_at(alloc, out, &object, name);
    drop(object);
    shown
}

/// Runs a job to its end, and reports it.
fn run_job(
    alloc: Global,
    out: &mut Vec<u8>,
    sim: &mut Sim,
    words: &[&[u8]],
) -> Result<(), AllocError> {
    go_on(sim, ALL)?;
    put_report(alloc, out, sim, words)
}

/// Makes so many steps of a job, and shows its state.
fn view_job(
    alloc: Global,
    out: &mut Vec<u8>,
    sim: &mut Sim,
    steps: u64,
    words: &[&[u8]],
) -> Result<(), AllocError> {
    go_on(sim, steps)?;
    put_view(alloc, out, sim, words)
}

/// Makes some steps of a job, and then shows how it stands after each of so many more.
fn trace_job(
    alloc: Global,
    out: &mut Vec<u8>,
    sim: &mut Sim,
    first: u64,
    last: u64,
) -> Result<(), AllocError> {
    go_on(sim, first.saturating_sub(1))?;
    put_trace(
        alloc,
        out,
        sim,
        last.saturating_add(1).saturating_sub(first),
    )
}

/// What is done with a job.
fn act_on_job(
    alloc: Global,
    out: &mut Vec<u8>,
    sim: &mut Sim,
    act: &JobAct,
) -> Result<(), AllocError> {
    match act {
        JobAct::Run(words) => run_job(alloc, out, sim, words),
        JobAct::View(steps, words) => view_job(alloc, out, sim, *steps, words),
        JobAct::Trace(first, last) => trace_job(alloc, out, sim, *first, *last),
    }
}

/// Something to do with a job. Words are those with which the lines begin that are asked for.
#[derive(Drop)]
enum JobAct<'a> {
    /// Run it to its end, and report it.
    Run(&'a [&'a [u8]]),
    /// Show its state after so many steps.
    View(u64, &'a [&'a [u8]]),
    /// Show how it stands from one step to another one.
    Trace(u64, u64),
}

/// Makes the job of a source, and acts on it.
fn with_job(
    alloc: Global,
    out: &mut Vec<u8>,
    source: &Source,
    making: Making,
    act: &JobAct,
) -> Result<(), Stop> {
    let mut sim = job_of(alloc, source, making)?;
    let done = act_on_job(alloc, out, &mut sim, act);
    drop(sim);
    Ok(done?)
}

/// Acts on the job of an object's own seeds and count.
fn with_own_job(
    alloc: Global,
    out: &mut Vec<u8>,
    source: &Source,
    budget: u64,
    act: &JobAct,
) -> Result<(), Stop> {
    let making = Making {
        seed: 0,
        count: 0,
        budget,
    };
    with_job(alloc, out, source, making, act)
}

/// Runs a job of this seed and count, which words spell.
fn run_made(
    alloc: Global,
    out: &mut Vec<u8>,
    source: &Source,
    budget: u64,
    seed: &[u8],
    count: &[u8],
    asked: &[&[u8]],
) -> Result<(), Stop> {
    let making = Making {
        seed: number_u32(seed)?,
        count: number(count)?,
        budget,
    };
    with_job(alloc, out, source, making, &JobAct::Run(asked))
}

/// What the words of a line ask for.
#[derive(Clone, Copy)]
enum Request {
    /// The text or the object, read.
    Read,
    /// The text, assembled.
    Assemble,
    /// The assembler's state table, or a row of it.
    Settle,
    /// The object, verified.
    Check,
    /// The weights of the object.
    Weights,
    /// A row of its state table.
    Row,
    /// A part of its spelling.
    Bytes,
    /// The report of its job.
    Run,
    /// How its job stands after so many steps.
    View,
    /// How its job stands after each of some steps.
    Trace,
}

/// The words with which such lines begin.
const REQUESTS: &[(&[u8], Request)] = &[
    (b"read", Request::Read),
    (b"asm", Request::Assemble),
    (b"settle", Request::Settle),
    (b"check", Request::Check),
    (b"weights", Request::Weights),
    (b"row", Request::Row),
    (b"bytes", Request::Bytes),
    (b"run", Request::Run),
    (b"view", Request::View),
    (b"trace", Request::Trace),
];

/// Does what the words ask for, and appends what comes of it.
///
/// - `read`: reads the text, or the object;
/// - `asm`: assembles the text;
/// - `settle`: gives the object the assembler's state table;
/// - `settle PLACE`: the row of a block or of a user chain in that table;
/// - `check`: verifies the object;
/// - `weights`: the weights of the object;
/// - `row PLACE`: the row of a block or of a user chain;
/// - `bytes FROM TO`: a part of the object's spelling;
/// - `run SEED COUNT [WORD ..]`: the report of the job's run, or its lines that begin with these words;
/// - `view STEPS [WORD ..]`: the same of the job after so many steps, with a line of how it stands and one of who is active;
/// - `trace FIRST LAST`: a line of how the job stands after each of these steps.
fn act(
    alloc: Global,
    out: &mut Vec<u8>,
    source: &Source,
    budget: u64,
    words: &[&[u8]],
) -> Result<(), Stop> {
    let (request, rest) = first_meaning(REQUESTS, words)?;
    match request {
        Request::Run | Request::View | Request::Trace => act_on_job_of(
            alloc, out, source, budget, request, rest,
        ),
        _ => act_on_source(alloc, out, source, request, rest),
    }
}

/// Does what is done with a text or an object.
fn act_on_source(
    alloc: Global,
    out: &mut Vec<u8>,
    source: &Source,
    request: Request,
    words: &[&[u8]],
) -> Result<(), Stop> {
    match (request, words) {
        (Request::Read, []) => read_source(alloc, out, source),
        (Request::Assemble, []) => assemble_source(alloc, out, source),
        (Request::Settle, []) => settle_source(alloc, out, source),
        (Request::Settle, [row]) => show_settled_row(alloc, out, source, row),
        (Request::Check, []) => check_source(alloc, out, source),
        (Request::Weights, []) => show_weights(alloc, out, source),
        (Request::Row, [row]) => show_row(alloc, out, source, row),
        (Request::Bytes, [from, to]) => show_bytes(alloc, out, source, from, to),
        _ => Err(Stop::Unknown),
    }
}

/// Does what is done with the job of a source.
fn act_on_job_of(
    alloc: Global,
    out: &mut Vec<u8>,
    source: &Source,
    budget: u64,
    request: Request,
    words: &[&[u8]],
) -> Result<(), Stop> {
    match (request, words) {
        (Request::Run, [seed, count, asked @ ..]) => {
            run_made(alloc, out, source, budget, seed, count, asked)
        }
        (Request::View, [steps, asked @ ..]) => {
            let act = JobAct::View(number(steps)?, asked);
            with_own_job(alloc, out, source, budget, &act)
        }
        (Request::Trace, [first, last]) => {
            let act = JobAct::Trace(number(first)?, number(last)?);
            with_own_job(alloc, out, source, budget, &act)
        }
        _ => Err(Stop::Unknown),
    }
}

/// Appends what comes of an act: its text; or the line of its refusal.
pub fn answer(
    alloc: Global,
    out: &mut Vec<u8>,
    source: &Source,
    budget: u64,
    words: &[&[u8]],
) -> Result<(), AllocError> {
    match act(alloc, out, source, budget, words) {
        Ok(()) => Ok(()),
        Err(Stop::Refused(fault)) => {
            let refusal = Refusal(fault);
            let line = format!(in alloc; "{refusal}\n")?;
            out.extend_from_slice(line.as_bytes())
        }
        Err(Stop::Unknown) => out.extend_from_slice(b"the script asks for what there isn't\n"),
        Err(Stop::Memory) => Err(AllocError),
    }
}
