//! The codes of refusals that a job's making, workers and a service's calls answer. docs/refusals.md lists all codes.

/// More than 16 seeds are given, or one above the greatest.
pub const SEED: u16 = 50;

/// The termination count that is given is above 2^40.
pub const COUNT: u16 = 51;

/// The budget of steps is 0 or above 2^40.
pub const BUDGET: u16 = 52;

/// Memory ran out when a job was made or started.
pub const JOB_MEMORY: u16 = 53;

/// There is no worker, or there are more than 16.
pub const WORKERS: u16 = 55;

/// A slice has no step, or more than 2^20.
pub const SLICE: u16 = 56;

/// No thread could be made for any worker.
pub const SPAWN: u16 = 57;

/// 16 jobs of the user run.
pub const USER_FULL: u16 = 60;

/// The service has had 1,024 jobs.
pub const SERVICE_FULL: u16 = 61;

/// The journal has no place for what a call needs.
pub const JOURNAL_FULL: u16 = 62;

/// Memory ran out in a call of the service, or before a worker was started.
pub const SERVICE_MEMORY: u16 = 63;

/// There is no such slot, or it is another user's.
pub const NOT_YOURS: u16 = 64;

/// The job hasn't ended.
pub const NOT_ENDED: u16 = 65;

/// The job was cancelled.
pub const CANCELLED: u16 = 66;

/// The pass has another job than the slot.
pub const STRANGER: u16 = 67;

/// The job has ended, and so can't be cancelled.
pub const ALREADY_ENDED: u16 = 68;

/// A number that is to be put into a model has no place there, or too many points were asked for.
pub const PARAMETER: u16 = 83;

/// A line isn't a row of the study that the rows before are of, or all rows aren't those of a study.
pub const ROW: u16 = 84;

/// A comment line of a model that begins with `*!` asks for no experiment, or none says how many runs there are.
pub const EXPERIMENT: u16 = 85;
