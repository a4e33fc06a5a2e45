//! What comment lines of a model ask for.

ghost use Rattle.std.specs.Prelude.{◌≡◌, ◌≤◌, ◌<◌, ◌+◌, ◌-◌, ◌^◌, IfOk};
ghost use Rattle.gw_experiment.specs.Answers.{Answers, IsDraftOf, lent_texts, view_of_draft};
ghost use Rattle.gw_experiment.specs.Experiments as model;

use crate::draft::{Draft, Refused};
use crate::fault::{ExperimentFault, no_experiment};
use crate::steps::add_line;
use gw_parameters::NoAnswer;
use gw_text_tokens::lines::lines_of;
use std::alloc::Global;

/// What comment lines of a model ask for.
#[derive(Drop)]
pub struct Experiment {
    /// The words as `NURSES=2,3`, at most two.
    pub parameters: Vec<Vec<u8>>,
    /// How many runs each point has, 1 to 512.
    pub runs: u32,
    /// The termination count of each; 0 means the model's own.
    pub count: u64,
    /// How many terminations are counted before the window begins; 0 where it is the whole run.
    pub from: u64,
}

/// What lines ask for.
#[tactic(auto, unfolding(crate::specs::Experiments::experiment_from))]
fn draft_of(alloc: Global, lines: &[&[u8]]) -> Result<Draft, NoAnswer>
    ensures { IsDraftOf (lent_texts lines.now) result }
{
    let mut draft = Draft {
        parameters: Vec::new(alloc),
        runs: None,
        count: None,
        from: None,
    };
    for i in 0..lines.len() {
        match add_line(alloc, &mut draft, lines[i]) {
            Ok(()) => {}
            Err(Refused::Fault(fault)) => return Err(no_experiment(alloc, i + 1, fault)),
            Err(Refused::Memory) => return Err(NoAnswer::Memory),
        }
    }
    Ok(draft)
}

/// What a draft asks for, if it says how many runs there are.
fn experiment_of(alloc: Global, draft: Draft, lines: usize) -> Result<Experiment, NoAnswer>
    requires { lines < 2 ^ 64 - 1 }
    ensures asked { Answers (model.experiment_of (lines + 1) (view_of_draft draft)) result }
    ensures runs { IfOk result (λ e. (1 ≤ e.runs) × (e.runs ≤ 512)) }
{
    let Draft {
        parameters,
        runs,
        count,
        from,
    } = draft;
    match runs {
        Some(runs) => Ok(Experiment {
            parameters,
            runs: runs as u32,
            count: count.unwrap_or(0),
            from: from.unwrap_or(0),
        }),
        None => {
            drop(parameters);
            Err(no_experiment(alloc, lines + 1, ExperimentFault::None))
        }
    }
}

/// What the lines of a model text ask for that begin with `*!`: `*! vary NURSES 2 3 4`, at most two such lines, whose numbers rise,
/// a point for each or for each pair; `*! runs 200`, how many runs each point has, 1 to 512; and, each at most once and in any order,
/// `*! count N` and `*! from W`, as a study has them.
///
/// Another line that begins so is refused (85 Experiment), and a text without `*! runs`, at the line behind its last.
pub fn experiment_in(alloc: Global, text: &[u8]) -> Result<Experiment, NoAnswer>
    ensures asked { Answers (model.experiment_in text.now) result }
    ensures runs { IfOk result (λ e. (1 ≤ e.runs) × (e.runs ≤ 512)) }
{
    match lines_of(alloc, text) {
        Ok(lines) => {
            let draft = draft_of(alloc, &lines)?;
            experiment_of(alloc, draft, lines.len())
        }
        Err(_) => Err(NoAnswer::Memory),
    }
}
