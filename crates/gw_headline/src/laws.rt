//! The headline, as the contract of a function that does nothing.

ghost use Rattle.gw_headline.specs.Headline.{
  AcceptedJobsRunSafely,
  ServicesRunSafely,
  VerifiedObjectsRunSafely,
};

/// Each job of an accepted object, with any seeds, count and budget, has a start, and none of the states of its lone run is
/// stuck at an error stop.
///
/// Take any list of submits, takes, returns and cancels that may come one after the other, by any users and workers, with slices
/// of any lengths, where each object that is submitted is accepted, with any seeds, count and budget. Then each row of the
/// service has a job whose lone run has a state after as many steps as the row has, and no other; no state of that lone run, be it
/// the row's or the one that a worker's task is in, is stuck at an error stop; and between two of these states of one clock
/// moment the job's block entries are at most the first state's certified weight (docs/headline.md).
///
/// So it is of each row of a service in hand, whatever calls made it, where its journal tells such events, as that of each table
/// does (`Table::steps` in `gw_jobs`, `Shared::steps` in `gw_pool`).
pub fn verified_objects_run_without_an_error_stop_alone_and_under_every_schedule()
    ensures jobs { AcceptedJobsRunSafely }
    ensures rows { VerifiedObjectsRunSafely }
    ensures services { ServicesRunSafely }
{}
