//! Laws of shares. Each is a function without parameters whose clauses are the law.

ghost use Rattle.gw_experiment.specs.Shares.{SharesAreAllJobs, RunsAreJobs};

/// All shares together have all jobs, each once.
pub fn shares_are_all_jobs()
    ensures { SharesAreAllJobs }
{}

/// The runs that a share has of a point are those whose jobs it has.
pub fn runs_are_jobs()
    ensures { RunsAreJobs }
{}
