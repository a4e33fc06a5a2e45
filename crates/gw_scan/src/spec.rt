//! What a job runs.

ghost use Rattle.std.specs.Prelude.{◌≡◌, ◌≤◌, ◌<◌, map, nat_le, slice_index_or, Decides, IfOk, IfErr, None};
ghost use Rattle.std.specs.Arc.{arc_value};
ghost use Rattle.std.specs.List.{All, list_all};
ghost use Rattle.gw_step.specs.Job as job;
ghost use Rattle.gw_scan.specs.Origins.{origin};
ghost use Rattle.gw_scan.specs.Making as model;

use crate::decoding::{Decoded, decode_all};
use gw_members::Memory;
use gw_num::Stream;
use gw_object::{Block, GREATEST_SEED, MOST_SEEDS, Parts};
use gw_rules::Verified;
use std::alloc::Global;
use std::marker::Model;
use std::sync::Arc;

/// Why a job can't be made of an object, or can't be started, each with the code of its refusal (ours: docs/refusals.md).
#[derive(Clone, Copy, PartialEq, Eq)]
pub enum StartFault {
    /// 50: more than 16 seeds, or one above 2147483646.
    Seed,
    /// 51: a termination count above 2^40.
    Count,
    /// 52: a budget of 0 steps, or above 2^40.
    Budget,
    /// 53: no memory.
    Memory,
}

/// The greatest termination count, and the greatest budget of steps.
const GREATEST: u64 = 1 << 40;

/// What a job runs: an object that the verifier accepted, the seeds of its 16 streams, the termination count, and the
/// budget, which is at most how many steps it makes. The object is shared by all specs that were made of one another.
#[derive(Drop)]
pub struct Spec {
    verified: Arc<Verified, Global>,
    // Its blocks, decoded.
    decoded: Arc<Vec<Decoded>, Global>,
    streams: [Stream; 16],
    count: u64,
    budget: u64,
}

impl Model for Spec {
    ghost use Rattle.gw_step.specs.Job.{Job};

    ghost Value = { Job };

    ghost use Rattle.gw_scan.specs.JobView.{job_of, IsJob};

    ghost view = { job_of };

    ghost invariant = { IsJob };
}

/// The 16 streams, each at its seed, where these are given.
fn streams_of(seeds: &[u32]) -> [Stream; 16]
    requires { All (λ seed. seed ≤ 2147483646) seeds.now }
    ensures { result ≡ job.streams_of seeds.now }
{
    let mut streams = [stream_at(seeds, 0); 16];
    for i in 0..16 {
        streams[i] = stream_at(seeds, i);
    }
    streams
}

/// The stream at a place, at its seed, where these are given.
fn stream_at(seeds: &[u32], i: usize) -> Stream
    requires seeds { All (λ seed. seed ≤ 2147483646) seeds.now }
    requires place { i < 16 }
    ensures { result ≡ job.seed_at seeds.now i }
{
    let given = seed_or_none(seeds, i);
    let seed = if given == 0 { i as u32 + 1 } else { given };
    match Stream::new(seed) {
        Some(stream) => stream,
        None => unreachable!(),
    }
}

/// The seed at a place, or 0 where there is none.
fn seed_or_none(seeds: &[u32], i: usize) -> u32
    ensures { result ≡ slice_index_or seeds.now i 0 }
{
    seeds.get(i).copied().unwrap_or(0)
}

/// The seeds that are given, or the object's own where none is.
fn seeds_or<'a>(seeds: &'a [u32], own: &'a [u32]) -> &'a [u32]
    ensures { result.now ≡ model.seeds_or seeds.now own.now }
{
    match seeds {
        [] => own,
        [_, ..] => seeds,
    }
}

/// The count that is given, or the object's own where that is 0.
fn count_or(count: u64, own: u64) -> u64
    ensures { result ≡ model.count_or count own }
{
    if count == 0 { own } else { count }
}

fn are_seeds(seeds: &[u32]) -> bool
    ensures { result ≡ list_all (λ seed. nat_le seed 2147483646) seeds.now }
{
    seeds.iter().all(|seed| *seed <= GREATEST_SEED)
}

/// Whether these seeds may be given.
fn seeds_fit(seeds: &[u32]) -> bool
    ensures { result ≡ model.seeds_fit seeds.now }
{
    seeds.len() <= MOST_SEEDS && are_seeds(seeds)
}

/// Why no job is made with these seeds, this count and this budget, if it is so: the first refusal that applies.
fn fault_of(seeds: &[u32], count: u64, budget: u64) -> Option<StartFault>
    ensures { result ≡ model.spec_fault seeds.now count budget }
{
    if !seeds_fit(seeds) {
        Some(StartFault::Seed)
    } else if count > GREATEST {
        Some(StartFault::Count)
    } else if budget == 0 || budget > GREATEST {
        Some(StartFault::Budget)
    } else {
        None
    }
}

/// These blocks, decoded, to be shared by specs.
fn shared_blocks(alloc: Global, blocks: &[Block]) -> Result<Arc<Vec<Decoded>, Global>, Memory>
    ensures { IfOk result (λ shared. map origin (arc_value shared).items ≡ blocks.now) }
{
    let decoded = decode_all(alloc, blocks)?;
    match Arc::new(alloc, decoded) {
        Ok(shared) => Ok(shared),
        Err(_) => Err(Memory),
    }
}

impl Spec {
    ghost use Rattle.gw_rules.specs.Accepted.{Checked};
    ghost use Rattle.gw_step.specs.Job.{JobFits};
    ghost use Rattle.gw_scan.specs.Making.{job_from, spec_fault, refusal_of};

    /// A job of this object, with at most `budget` steps. An empty list of seeds, and a count of 0, mean the object's own;
    /// a seed of 0, or none, is the stream's own number, from 1 (ours: docs/machine.md).
    ///
    /// It hands the object back with the first of these that applies: `Seed` for more than 16 seeds or one above
    /// 2147483646, `Count` for a count above 2^40, `Budget` for a budget of 0 or above 2^40, and last `Memory`: it takes
    /// the memory in which the object is shared.
    pub fn new(
        alloc: Global,
        verified: Verified,
        seeds: &[u32],
        count: u64,
        budget: u64,
    ) -> Result<Spec, (Verified, StartFault)>
        ensures made { IfOk result (λ spec. spec ≡ job_from verified seeds.now count budget) }
        ensures in_range { IfOk result (λ _. spec_fault seeds.now count budget ≡ None) }
        ensures back { IfErr result (λ e. e.0 ≡ verified) }
        ensures refused { IfErr result (λ e. e.1 ≡ refusal_of seeds.now count budget) }
    {
        if let Some(fault) = fault_of(seeds, count, budget) {
            return Err((verified, fault));
        }
        let parts = verified.object().parts();
        let streams = streams_of(seeds_or(seeds, parts.seeds.as_slice()));
        let count = count_or(count, parts.count);
        let decoded = match shared_blocks(alloc, parts.blocks.as_slice()) {
            Ok(decoded) => decoded,
            Err(_) => return Err((verified, StartFault::Memory)),
        };
        match Arc::new(alloc, verified) {
            Ok(verified) => Ok(Spec {
                verified,
                decoded,
                streams,
                count,
                budget,
            }),
            Err(refused) => Err((refused.value, StartFault::Memory)),
        }
    }

    /// The same job once more. The object isn't copied: the two share it. `Memory` comes only where 2^63 - 1 specs share it
    /// already.
    pub fn share(&self) -> Result<Spec, Memory>
        ensures { IfOk result (λ spec. spec ≡ self.now) }
    {
        let verified = Arc::try_clone(&self.verified)?;
        let decoded = Arc::try_clone(&self.decoded)?;
        Ok(Spec {
            verified,
            decoded,
            streams: self.streams,
            count: self.count,
            budget: self.budget,
        })
    }

    /// Another job of its object, with these seeds, this count and its own budget, as `new` makes it, whose refusals of seeds and
    /// count are its refusals. The object isn't copied: the two share it. `Memory` comes only where 2^63 - 1 specs share it already.
    pub fn reseed(&self, seeds: &[u32], count: u64) -> Result<Spec, StartFault>
        ensures made { IfOk result (λ spec.
            spec ≡ job_from self.now.parts seeds.now count self.now.budget) }
        ensures in_range { IfOk result (λ _.
            spec_fault seeds.now count self.now.budget ≡ None) }
        ensures refused { IfErr result (λ fault.
            fault ≡ refusal_of seeds.now count self.now.budget) }
    {
        if let Some(fault) = fault_of(seeds, count, self.budget) {
            return Err(fault);
        }
        let parts = self.verified_object().object().parts();
        let streams = streams_of(seeds_or(seeds, parts.seeds.as_slice()));
        let count = count_or(count, parts.count);
        let Ok(decoded) = Arc::try_clone(&self.decoded) else {
            return Err(StartFault::Memory);
        };
        match Arc::try_clone(&self.verified) {
            Ok(verified) => Ok(Spec {
                verified,
                decoded,
                streams,
                count,
                budget: self.budget,
            }),
            Err(_) => Err(StartFault::Memory),
        }
    }

    /// The object that it runs.
    pub fn verified_object(&self) -> &Verified
        ensures value { result.now ≡ self.now.parts }
        ensures fits { JobFits self.now }
    {
        &self.verified
    }

    /// The blocks of its object, decoded.
    pub(crate) fn decoded(&self) -> &[Decoded]
        ensures { map origin result.now ≡ self.now.parts.blocks }
    {
        self.decoded.as_slice()
    }

    /// The parts of its object.
    fn parts(&self) -> &Parts
        ensures { result.now ≡ self.now.parts }
    {
        self.verified_object().object().parts()
    }

    /// Its 16 streams, each at its seed, from the first on.
    pub fn streams(&self) -> [Stream; 16]
        ensures { result ≡ self.now.streams }
    {
        self.streams
    }

    /// The termination count, 1 to 2^40.
    pub fn count(&self) -> u64
        ensures value { result ≡ self.now.count }
        ensures fits { JobFits self.now }
    {
        self.count
    }

    /// At most how many steps it makes, 1 to 2^40.
    pub fn budget(&self) -> u64
        ensures value { result ≡ self.now.budget }
        ensures fits { JobFits self.now }
    {
        self.budget
    }
}

impl PartialEq for Spec {
    ghost use Rattle.std.specs.Cmp.{partial_equiv_from_equiv};
    ghost use Rattle.gw_equality.specs.Jobs.{same_job};
    ghost use Rattle.gw_equality.proofs.Jobs.{job_equivalence};

    ghost eq = { same_job };

    ghost laws = { partial_equiv_from_equiv job_equivalence };

    /// Whether they are the same job: parts of the object, seeds, count and budget. What is compared quickly goes before the
    /// object. It takes no memory.
    fn eq(&self, other: &Spec) -> bool
        ensures value { result ≡ same_job self.now other.now }
        ensures decides { Decides result (self.now ≡ other.now) }
    {
        self.budget == other.budget
            && self.count == other.count
            && self.streams == other.streams
            && *self.parts() == *other.parts()
    }
}

impl Eq for Spec {
    ghost use Rattle.gw_equality.proofs.Jobs.{job_equivalence};

    ghost laws = { job_equivalence };
}
