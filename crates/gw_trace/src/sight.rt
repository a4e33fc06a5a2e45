//! What is seen of a state.

ghost use Rattle.std.specs.Prelude.{◌≡◌};
ghost use Rattle.gw_trace.specs.Sights as model;

use gw_scan::Sim;

/// A block that a transaction tries to enter.
#[derive(Clone, Copy, PartialEq, Eq)]
pub struct Candidate {
    /// Its number, from 1; 0 stands for no block.
    pub block: u16,
    /// Its entries so far.
    pub entries: u64,
}

/// The two blocks that a transaction tries which has entered a TRANSFER BOTH.
#[derive(Clone, Copy, PartialEq, Eq)]
pub struct Choice {
    /// The one that it tries first.
    pub first: Candidate,
    /// The one that it tries where the first refuses it.
    pub second: Candidate,
}

/// What is seen of a state before a step, so that the state after it tells what the step did.
#[derive(Clone, Copy, PartialEq, Eq)]
pub struct Sight {
    /// The number of the active transaction, from 1, if there is one.
    pub active: Option<u64>,
    /// The block that it tries to enter, or the TRANSFER BOTH that it has entered; none where nobody is active.
    pub next: Candidate,
    /// The two blocks that it tries, if it has entered a TRANSFER BOTH.
    pub choice: Option<Choice>,
    /// How many transactions are live.
    pub live: usize,
    /// How many are on the future events chain.
    pub future_events: usize,
    /// How many wait on delay lists.
    pub delayed: usize,
    /// How many wait on the retry list.
    pub retrying: usize,
}

/// The number of the block that the active transaction tries to enter, or of the TRANSFER BOTH that it has entered, from 1; 0
/// where nobody is active.
pub(crate) fn next_block(sim: &Sim) -> u16
    ensures { result ≡ model.next_block sim.now.state }
{
    match sim.active_transaction() {
        Some(transaction) => transaction.next,
        None => 0,
    }
}

/// A block, by its number from 1, with its entries so far.
fn candidate_at(sim: &Sim, block: u16) -> Candidate
    ensures { result ≡ model.candidate_at sim.now.state block }
{
    Candidate {
        block,
        entries: sim.entries_at(block),
    }
}

/// Two blocks, by their numbers from 1, with their entries so far.
fn choice_between(sim: &Sim, pair: (u16, u16)) -> Choice
    ensures { result ≡ model.choice_between sim.now.state pair }
{
    Choice {
        first: candidate_at(sim, pair.0),
        second: candidate_at(sim, pair.1),
    }
}

/// The two blocks that the active transaction tries, if it has entered a TRANSFER BOTH.
fn next_choice(sim: &Sim) -> Option<Choice>
    ensures { result ≡ model.next_choice sim.now.job.parts sim.now.state }
{
    let pair = sim.next_pair()?;
    Some(choice_between(sim, pair))
}

impl Sight {
    /// What is seen of the state that a job is in.
    pub(crate) fn of(sim: &Sim) -> Sight
        ensures { result ≡ model.sight_of sim.now.job.parts sim.now.state }
    {
        Sight {
            active: sim.active(),
            next: candidate_at(sim, next_block(sim)),
            choice: next_choice(sim),
            live: sim.live(),
            future_events: sim.future_events(),
            delayed: sim.delayed_len(),
            retrying: sim.retry_len(),
        }
    }
}
