//! What a study is asked for.

ghost use Rattle.std.specs.Prelude.{◌≡◌, ◌≤◌, ◌+◌};
ghost use Rattle.gw_study.specs.Requests as model;
ghost use Rattle.gw_study.specs.Requests.{MayBeStudied};

/// At most so many runs have seeds of their own: from the 512th on they mirror the first.
pub const MOST_RUNS: u32 = 512;

/// What a study is asked for.
#[derive(Clone, Copy, PartialEq, Eq)]
pub struct StudyRequest {
    /// How many runs, 1 to 512.
    pub runs: u32,
    /// The termination count of each; 0 means the model's own.
    pub count: u64,
    /// How many terminations are counted before the window begins; 0 where it is the whole run.
    pub from: u64,
    /// Which study of so many runs it is, from 1: each has runs of its own, and all are within the first 512.
    pub seeds: u32,
    /// How many workers make the runs, at most 16; 0 means as many as the machine has processors.
    pub workers: u32,
    /// Whether all figures are told.
    pub all: bool,
}

/// The first run of a study.
pub(crate) fn first_run(request: StudyRequest) -> u32
    requires { MayBeStudied request }
    ensures value { result ≡ model.first_run request }
    ensures most { result + request.runs ≤ 512 }
{
    (request.seeds - 1) * request.runs
}
