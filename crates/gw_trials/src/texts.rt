//! The report of a text, by way of each call that asks for memory, which is made once more where memory was refused.

use crate::calls::{
    assemble_model, bytes_of, job_of, model_of, object_of, run_to_end, start_job, verify_object,
    write_report,
};
use crate::refusals::Refusals;
use gw_object::Memory;
use gw_rules::Verified;
use gw_scan::Sim;
use std::alloc::Global;
use std::rt::Files;
use std::{fs, io};

/// The report of a job that was started, once it has ended.
fn report_of_sim(alloc: Global, sim: &mut Sim, refusals: &mut Refusals) -> Result<Vec<u8>, Memory> {
    run_to_end(sim, refusals)?;
    write_report(alloc, sim, refusals)
}

/// The report of an accepted object.
fn report_of_verified(
    alloc: Global,
    verified: Verified,
    refusals: &mut Refusals,
) -> Result<Vec<u8>, Memory> {
    let spec = job_of(alloc, verified, refusals)?;
    let mut sim = start_job(alloc, spec, refusals)?;
    let report = report_of_sim(alloc, &mut sim, refusals);
    drop(sim);
    report
}

/// The report of the object that these bytes spell. One that is refused has none.
fn report_of_bytes(
    alloc: Global,
    bytes: &[u8],
    refusals: &mut Refusals,
) -> Result<Vec<u8>, Memory> {
    let object = object_of(alloc, bytes, refusals).ok().ok_or(Memory)?;
    let verified = verify_object(alloc, object, refusals).ok().ok_or(Memory)?;
    report_of_verified(alloc, verified, refusals)
}

/// The spelling of the object that a text becomes. A text that is refused has none.
fn bytes_of_text(alloc: Global, text: &[u8], refusals: &mut Refusals) -> Result<Vec<u8>, Memory> {
    let model = model_of(alloc, text, refusals).ok().ok_or(Memory)?;
    let assembled = assemble_model(alloc, &model, refusals);
    drop(model);
    let verified = assembled.ok().ok_or(Memory)?;
    let bytes = bytes_of(alloc, verified.object(), refusals);
    drop(verified);
    bytes
}

/// The report of a text, by way of the bytes of its object.
fn report_of(alloc: Global, text: &[u8], refusals: &mut Refusals) -> Result<Vec<u8>, Memory> {
    let bytes = bytes_of_text(alloc, text, refusals)?;
    report_of_bytes(alloc, bytes.as_slice(), refusals)
}

/// Appends the report of a text, and which calls were refused memory; it answers whether there is one, and no step that was refused
/// changed anything.
fn put_report<R: Files + AllocGlobal>(rt: &R, out: &mut Vec<u8>, name: &str) -> io::Result<bool> {
    let path = format!(in rt.alloc(); "{name}.gps")?;
    let text = fs::read(rt, path.as_str())?;
    let mut refusals = Refusals::new();
    let report = report_of(rt.alloc(), text.as_slice(), &mut refusals);
    let line = format!(in rt.alloc(); "{name}: {refusals}\n")?;
    out.extend_from_slice(line.as_bytes())?;
    match report {
        Ok(text) => {
            out.extend_from_slice(text.as_slice())?;
            Ok(refusals.is_unmoved())
        }
        Err(_) => Ok(false),
    }
}

/// Prints of the texts of these names, as `assembly` of `assembly.gps`, which calls were refused memory, and whether a step that was
/// refused left the job as it was; then the report. It answers whether each text has a report and each such step did.
pub fn report_texts<R: Files + Print + AllocGlobal>(rt: &R, names: &[String]) -> io::Result<bool> {
    let mut out = Vec::new(rt.alloc());
    let mut is_right = true;
    for name in names {
        is_right &= put_report(rt, &mut out, name.as_str())?;
    }
    io::Write::write_all(&mut io::writer(rt), out.as_slice())?;
    Ok(is_right)
}
