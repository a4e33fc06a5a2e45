//! What jobs are made of: seeds and termination counts that are given, and which specs are the same job.

use super::jobs::{spec_by, spec_of};
use gw_num::Stream;
use gw_object::Memory;
use gw_scan::{Sim, Spec};
use std::alloc::Global;
use std::marker::{Send, Sync};
use std::test::Fail;

/// GENERATE 10 / ADVANCE 3 / TERMINATE 1, with seeds 5, 0 and 9 and a termination count of 2.
const SEEDED: &[u8] = b"\
    GPSO\0\x01\x03\0\0\0\x05\0\0\0\0\0\0\0\x09\0\0\0\0\0\0\0\x02\0\0\x03\
    \x01\0\0\0\0\0\0\0\0\x0a\0\0\0\0\0\0\0\0\0\0\0\0\0\0\0\
    \x03\0\0\0\0\0\0\0\0\x03\0\0\0\0\0\0\0\0\0\
    \x02\0\0\0\0\0\0\0\0\x01\
    \0\x01\0\0\0\x01\0\0\0\x01\0\0\0\
    \0\0\0\x02\0\0\0\x01\0\0\0\x01";

/// Seeds and a termination count that are given; the seeds of the job's streams and its count; and whether it is the job with
/// nothing given.
struct Making {
    seeds: &'static [u32],
    count: u64,
    streams: [u32; 16],
    counts_down: u64,
    is_own: bool,
}

/// What comes of these. Seeds and counts are compared as they result, and not as they are given.
const MAKINGS: &[Making] = &[
    Making {
        seeds: &[],
        count: 0,
        streams: [5, 2, 9, 4, 5, 6, 7, 8, 9, 10, 11, 12, 13, 14, 15, 16],
        counts_down: 2,
        is_own: true,
    },
    Making {
        seeds: &[5, 2, 9, 4, 0, 6],
        count: 2,
        streams: [5, 2, 9, 4, 5, 6, 7, 8, 9, 10, 11, 12, 13, 14, 15, 16],
        counts_down: 2,
        is_own: true,
    },
    Making {
        seeds: &[0, 8],
        count: 3,
        streams: [1, 8, 3, 4, 5, 6, 7, 8, 9, 10, 11, 12, 13, 14, 15, 16],
        counts_down: 3,
        is_own: false,
    },
    Making {
        seeds: &[7; 16],
        count: 0,
        streams: [7; 16],
        counts_down: 2,
        is_own: false,
    },
];

/// Whether these streams are at these seeds.
fn are_at(streams: &[Stream; 16], seeds: &[u32; 16]) -> bool {
    for i in 0..16 {
        if Stream::new(seeds[i]) != Some(streams[i]) {
            return false;
        }
    }
    true
}

/// Whether a spec is as it has to come of its making, and is told right from the one with nothing given.
fn is_due(spec: &Spec, own: &Spec, making: &Making) -> bool {
    spec.count() == making.counts_down
        && are_at(&spec.streams(), &making.streams)
        && (*spec == *own) == making.is_own
}

/// Whether that is so of the spec that is made.
fn is_made(alloc: Global, own: &Spec, making: &Making) -> Result<bool, Memory> {
    let spec = spec_by(alloc, SEEDED, making.seeds, making.count)?;
    Ok(is_due(&spec, own, making))
}

/// The place, from 0, of the first of which it isn't.
fn wrong_making(alloc: Global, own: &Spec) -> Result<Option<usize>, Memory> {
    for i in 0..MAKINGS.len() {
        if !is_made(alloc, own, &MAKINGS[i])? {
            return Ok(Some(i));
        }
    }
    Ok(None)
}

#[test]
fn given_seeds_and_count_go_before_the_objects_own(rt: HostRuntime) -> Result<(), Fail> {
    let own = spec_of(rt.alloc(), SEEDED)?;
    assert!(rt; wrong_making(rt.alloc(), &own)?.is_none());
    Ok(())
}

/// What may be sent to another thread.
fn may_be_sent<T: Send>() {}

/// What may be used by several threads at once.
fn may_be_shared<T: Sync>() {}

/// That it is proved is all: a spec or a job that belonged to one thread couldn't be handed over.
#[test]
fn specs_and_jobs_may_be_sent_to_threads() {
    may_be_sent::<Sim>();
    may_be_sent::<Spec>();
    may_be_shared::<Spec>();
}
