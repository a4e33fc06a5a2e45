//! The jobs that users submit, and what the lone run of each comes to.

use gw_assemble::assemble;
use gw_object::Memory;
use gw_report::report;
use gw_rules::Verified;
use gw_scan::{End, Sim, Spec, Status};
use gw_text::parse;
use std::alloc::Global;
use std::rt::Files;
use std::{fs, io};

/// The lone run of a sample that isn't endless has fewer steps.
const MOST_STEPS: u32 = 1_000_000;

/// More steps than any run makes here, and more customers.
const AMPLE: u64 = 1 << 40;

/// How a sample is made: of a text, with this termination count (0: the text's own) and this budget. Its lone run comes to this
/// end; none is told of one that comes to no end here.
#[derive(Clone, Copy)]
struct Making {
    text: &'static str,
    count: u64,
    budget: u64,
    end: Option<End>,
}

/// The samples: those with the fewest steps come first.
const MAKINGS: &[Making] = &[
    Making {
        text: "at_start",
        count: 0,
        budget: AMPLE,
        end: Some(End::NegativeTime),
    },
    Making {
        text: "short",
        count: 0,
        budget: AMPLE,
        end: Some(End::Done),
    },
    Making {
        text: "last_event",
        count: 0,
        budget: AMPLE,
        end: Some(End::NoMoreEvents),
    },
    Making {
        text: "zero_divisor",
        count: 0,
        budget: AMPLE,
        end: Some(End::ZeroDivisor),
    },
    Making {
        text: "desk",
        count: 0,
        budget: 50,
        end: Some(End::Budget),
    },
    Making {
        text: "desk",
        count: 0,
        budget: AMPLE,
        end: Some(End::Done),
    },
    Making {
        text: "desk",
        count: 3_000,
        budget: AMPLE,
        end: Some(End::Done),
    },
    Making {
        text: "desk",
        count: AMPLE,
        budget: AMPLE,
        end: None,
    },
];

/// What a lone run comes to.
#[derive(Drop)]
pub struct Lone {
    /// The named end.
    pub end: End,
    /// The steps.
    pub steps: u64,
    /// The report of its final state.
    pub report: Vec<u8>,
}

/// A job that users submit.
#[derive(Drop)]
pub struct Sample {
    /// What it runs.
    pub spec: Spec,
    /// What its lone run comes to; none where it comes to no end here.
    pub lone: Option<Lone>,
}

impl Sample {
    /// The steps of its lone run.
    fn most_steps(&self) -> u64 {
        match &self.lone {
            Some(lone) => lone.steps,
            None => u64::MAX,
        }
    }

    /// Whether it may run on after so many steps that were made in slices of this length.
    pub fn may_run(&self, steps: u64, slice: u64) -> bool {
        steps < self.most_steps() && steps.is_multiple_of(slice)
    }

    /// Whether it ends after so many steps.
    pub fn ends_after(&self, steps: u64) -> bool {
        self.lone.is_some() && steps == self.most_steps()
    }

    /// Its steps after one slice more.
    pub fn after_slice(&self, steps: u64, slice: u64) -> u64 {
        steps.saturating_add(slice).min(self.most_steps())
    }
}

/// The accepted object that a text becomes. One that is refused has none.
pub fn verified_of(alloc: Global, text: &[u8]) -> Result<Verified, Memory> {
    let model = parse(alloc, text).ok().ok_or(Memory)?;
    let assembled = assemble(alloc, &model);
    drop(model);
    assembled.ok().ok_or(Memory)
}

/// What a job of an accepted object runs.
pub fn spec_of(alloc: Global, verified: Verified, count: u64, budget: u64) -> Result<Spec, Memory> {
    match Spec::new(alloc, verified, &[], count, budget) {
        Ok(spec) => Ok(spec),
        Err((verified, _)) => {
            drop(verified);
            Err(Memory)
        }
    }
}

/// Makes steps until a named end stands, if one does before the steps are too many.
fn end_of(sim: &mut Sim) -> Result<Option<End>, Memory> {
    let mut status = sim.status();
    for _ in 0..MOST_STEPS {
        match status {
            Status::Running => status = sim.step()?,
            Status::Ended(end) => return Ok(Some(end)),
        }
    }
    Ok(None)
}

/// What a job that was started comes to.
fn lone_of_sim(alloc: Global, sim: &mut Sim) -> Result<Lone, Memory> {
    let end = end_of(sim)?.ok_or(Memory)?;
    let report = report(alloc, sim)?;
    Ok(Lone {
        end,
        steps: sim.steps(),
        report,
    })
}

/// What the lone run of a job comes to.
fn lone_of(alloc: Global, spec: Spec) -> Result<Lone, Memory> {
    match Sim::start(alloc, spec) {
        Ok(mut sim) => {
            let lone = lone_of_sim(alloc, &mut sim);
            drop(sim);
            lone
        }
        Err((spec, _)) => {
            drop(spec);
            Err(Memory)
        }
    }
}

/// The sample with what its lone run comes to, which has to be the end that its making tells.
fn sample_of(alloc: Global, spec: Spec, end: Option<End>) -> Result<Sample, Memory> {
    let lone = match end {
        Some(end) => {
            let lone = lone_of(alloc, spec.share()?)?;
            if lone.end != end {
                return Err(Memory);
            }
            Some(lone)
        }
        None => None,
    };
    Ok(Sample { spec, lone })
}

/// The text of this name, from its file.
pub fn text_named<R: Files + AllocGlobal>(rt: &R, name: &str) -> io::Result<Vec<u8>> {
    let path = format!(in rt.alloc(); "{name}.gps")?;
    fs::read(rt, path.as_str())
}

/// The sample that is made so.
fn made<R: Files + AllocGlobal>(rt: &R, making: Making) -> io::Result<Sample> {
    let text = text_named(rt, making.text)?;
    let verified = verified_of(rt.alloc(), text.as_slice())?;
    let spec = spec_of(rt.alloc(), verified, making.count, making.budget)?;
    Ok(sample_of(rt.alloc(), spec, making.end)?)
}

/// All samples.
pub fn all_samples<R: Files + AllocGlobal>(rt: &R) -> io::Result<Vec<Sample>> {
    let mut samples = Vec::new(rt.alloc());
    for making in MAKINGS {
        samples.push(made(rt, *making)?)?;
    }
    Ok(samples)
}
