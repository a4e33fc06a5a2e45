//! Runs on many machines: rows, shares, and the object of a run.

ghost use Rattle.std.specs.Prelude.{◌≡◌, IfOk};
ghost use Rattle.gw_command_line.specs.Asking.{AreRunsFit, IsRunFit, IsShardFit};
ghost use Rattle.gw_command_line.specs.Rows.{runs_view, lone_view};
ghost use Rattle.gw_command_line.specs.Options.{view};
ghost use Rattle.gw_alternatives.specs.Alternatives.{ArePoints};
ghost use Rattle.gw_planner.specs.Answers.{rows_asked, rows_request_of, share_asked, object_asked, words_of as words_for};

use crate::studies::words_of;
use gw_alternatives::StudyPoint;
use gw_answers::Answer;
use gw_command_line::{LoneRun, Runs, Shard};
use gw_object::Memory;
use gw_shards::{RowsRequest, object_of_run, rows_of_points, rows_of_share};
use std::alloc::Global;
use std::io::Eprint;
use std::thread::Threads;

/// What is asked for, as the library of rows has it.
fn request_of(runs: &Runs<'_>) -> RowsRequest
    ensures { result ≡ rows_request_of (runs_view runs.now) }
{
    RowsRequest {
        first: runs.first,
        end: runs.end,
        count: runs.count,
        from: runs.options.from.unwrap_or(0),
        workers: runs.options.workers.unwrap_or(0),
    }
}

/// The rows of runs of a model, whose points are these. How far they are is told on standard error. `Err` where memory runs out.
pub(crate) fn rows_of<T: Threads + Sync + Eprint>(
    rt: &T,
    alloc: Global,
    runs: &Runs<'_>,
    model: &[u8],
    points: &[StudyPoint],
) -> Result<Answer, Memory>
    requires fit { AreRunsFit runs.now }
    requires points { ArePoints model.now (words_for (view runs.now.options)) runs.now.count points.now }
    ensures { IfOk result (λ a. rows_asked (runs_view runs.now) model.now a.text.items a.status) }
{
    let request = request_of(runs);
    rows_of_points(rt, alloc, model, points, &request)
}

/// The rows of a share of a model's experiment, as those of [`rows_of`].
pub(crate) fn share_of<T: Threads + Sync + Eprint>(
    rt: &T,
    alloc: Global,
    shard: Shard,
    text: &[u8],
) -> Result<Answer, Memory>
    requires { IsShardFit shard }
    ensures { IfOk result (λ a. share_asked shard text.now a.text.items a.status) }
{
    rows_of_share(rt, alloc, text, shard.number, shard.shares, shard.workers)
}

/// The object of a run of a model. `Err` where memory runs out.
pub(crate) fn object_of(alloc: Global, run: &LoneRun<'_>, text: &[u8]) -> Result<Answer, Memory>
    requires { IsRunFit run.now }
    ensures { IfOk result (λ a. object_asked (lone_view run.now) text.now a.text.items a.status) }
{
    let words = words_of(alloc, &run.options)?;
    object_of_run(alloc, text, &words, run.run, run.count)
}
