//! Shares of an experiment's jobs. A job is a run of a point: those of the first point come first, each point's by their numbers.

ghost use Rattle.std.specs.Prelude.{◌≡◌, ◌<◌, ◌≤◌, ◌+◌, ◌^◌};
ghost use Rattle.gw_experiment.specs.Shares as model;

/// A share: some jobs, which follow one another.
#[derive(Clone, Copy, PartialEq, Eq)]
pub struct Share {
    /// The first job, from 0.
    pub first: u64,
    /// The job behind the last one.
    pub end: u64,
}

/// Where a share begins, of so many that divide so many jobs.
fn start_of(jobs: u64, number: u64, shares: u64) -> u64
    requires { (jobs ≤ 2 ^ 31) × (number ≤ 2 ^ 32) × (0 < shares) }
    ensures { result ≡ model.start_of jobs number shares }
{
    number * jobs / shares
}

impl Share {
    /// A share by its number, from 0, of so many that divide so many jobs evenly: one has at most one job more than another.
    pub fn of(jobs: u64, number: u32, shares: u32) -> Share
        requires { (jobs ≤ 2 ^ 31) × (number < shares) }
        ensures { result ≡ model.share_of jobs number shares }
    {
        let number = u64::from(number);
        let shares = u64::from(shares);
        Share {
            first: start_of(jobs, number, shares),
            end: start_of(jobs, number + 1, shares),
        }
    }
}

/// The run of a point at which a job stands, where each point has so many runs.
fn run_at(job: u64, point: u32, runs: u32) -> u32
    ensures value { result ≡ model.run_at job point runs }
    ensures range { result ≤ runs }
{
    let runs = u64::from(runs);
    job.saturating_sub(u64::from(point) * runs).min(runs) as u32
}

/// The runs that a share has of a point, by its number from 0, where each point has so many: the first, and the one behind the last.
pub fn runs_of_point(share: Share, point: u32, runs: u32) -> (u32, u32)
    ensures first { result.0 ≡ model.run_at share.first point runs }
    ensures end { result.1 ≡ model.run_at share.end point runs }
    ensures range { (result.0 ≤ runs) × (result.1 ≤ runs) }
{
    (
        run_at(share.first, point, runs),
        run_at(share.end, point, runs),
    )
}
