//! The jobs of these tests, and passes for them.

use gw_jobs::Pass;
use gw_object::Memory;
use gw_object_bytes::read;
use gw_scan::Spec;
use gw_verify::verify;
use std::alloc::Global;

/// More steps than any job makes here.
const AMPLE: u64 = 1_000_000_000;

/// The spec of an object that is spelled so, which is accepted, with these seeds and this termination count: if there is none,
/// memory is wanting.
pub(super) fn spec_by(
    alloc: Global,
    bytes: &[u8],
    seeds: &[u32],
    count: u64,
) -> Result<Spec, Memory> {
    let object = read(alloc, bytes).ok().ok_or(Memory)?;
    let verified = verify(alloc, object).ok().ok_or(Memory)?;
    Spec::new(alloc, verified, seeds, count, AMPLE)
        .ok()
        .ok_or(Memory)
}

/// The same with the object's own seeds and termination count.
pub(super) fn spec_of(alloc: Global, bytes: &[u8]) -> Result<Spec, Memory> {
    spec_by(alloc, bytes, &[], 0)
}

/// A pass of this user for this slot and a job of that object.
pub(super) fn pass_for(alloc: Global, user: u64, slot: u32, bytes: &[u8]) -> Result<Pass, Memory> {
    Ok(Pass::of(user, slot, spec_of(alloc, bytes)?))
}
