//! Queues.

ghost use Rattle.std.specs.Prelude.{◌≡◌, ◌≤◌, ◌<◌, ◌+◌, ◌^◌, ℕ, length, IfOk, Some, true};
ghost use Rattle.std.proofs.Common.{rules};
ghost use Rattle.gw_entities.specs.Average.{average};
ghost use Rattle.gw_entities.specs.Contents as contents;
ghost use Rattle.gw_entities.specs.Contents.{CanTake};
ghost use Rattle.gw_entities.specs.Fits.{QueueFits, StaysFit};
ghost use Rattle.gw_entities.specs.Queue as model;
ghost use Rattle.gw_entities.specs.Queue.{queue_at};
ghost use Rattle.gw_entities.specs.Numbered.{OthersStay};

use crate::average::{Average, average_of};
use crate::contents::Contents;
use crate::numbered::{Numbered, Timed};
use gw_object::Kind;

/// Lets `n` units join.
fn join(queue: &mut Contents, n: u32)
    requires few { CanTake n queue.old }
    ensures value { queue.new ≡ model.with_arrivals n queue.old }
    ensures fits { StaysFit QueueFits queue.old queue.new }
{
    queue.add(n);
}

/// Lets `n` units depart.
fn depart(queue: &mut Contents, n: u32)
    requires { n ≤ queue.old.content }
    ensures value { model.departure_of n queue.old ≡ Some queue.new }
    ensures fits { StaysFit QueueFits queue.old queue.new }
{
    queue.take(n);
}

/// A queue is what is inside, and has no capacity (GPSS World Reference Manual, "QUEUE" and "DEPART").
impl Timed for Contents {
    ghost none = { contents.empty };

    ghost fresh = { λ kind. contents.empty };

    ghost after = { contents.contents_after };

    ghost Fits = { QueueFits };

    fn fresh(_kind: &Kind) -> Contents {
        Contents::empty()
    }

    fn pass_time(&mut self, dt: u64) {
        self.accrue(dt);
    }

    ghost at_once = { λ value. Prim.search rules };

    ghost in_parts = { λ a b value. Prim.search rules };
}

/// The queues of a job, each by its number as an entity of the object.
pub type Queues = Numbered<Contents>;

impl Numbered<Contents> {
    /// Lets `n` units join the queue `q`, where those inside and those that ever joined are at most 2^62 then (GPSS World
    /// Reference Manual, "QUEUE"; the limit is ours: docs/machine.md).
    #[tactic(auto, using(crate::proofs::Rules::tables))]
    pub fn join_queue(&mut self, q: u16, n: u32)
        requires there { q < length self.old.values }
        requires few { CanTake n (queue_at q self.old) }
        ensures value { queue_at q self.new ≡ model.with_arrivals n (queue_at q self.old) }
        ensures others { OthersStay contents.empty q self.old self.new }
        ensures count { length self.new.values ≡ length self.old.values }
    {
        let mut queue = self.get(q);
        join(&mut queue, n);
        self.set(q, queue);
    }

    /// Lets `n` units depart from the queue `q`, where at least so many are inside (GPSS World Reference Manual, "DEPART").
    #[tactic(auto, using(crate::proofs::Rules::tables))]
    pub fn depart(&mut self, q: u16, n: u32)
        requires there { q < length self.old.values }
        requires inside { n ≤ (queue_at q self.old).content }
        ensures value { model.departure_of n (queue_at q self.old) ≡ Some (queue_at q self.new) }
        ensures others { OthersStay contents.empty q self.old self.new }
        ensures count { length self.new.values ≡ length self.old.values }
    {
        let mut queue = self.get(q);
        depart(&mut queue, n);
        self.set(q, queue);
    }

    /// The average content of the queue `q` over the time so far, at most the most that were inside at one moment
    /// (GPSS World Reference Manual, "Standard Reports"; thousandths are ours: docs/report.md).
    pub fn average(&self, q: u16) -> Average
        requires { q < length self.now.values }
        ensures value { result ≡ average (queue_at q self.now).time_sum self.now.passed }
        ensures most { result.whole ≤ (queue_at q self.now).maximum }
    {
        average_of(self.get(q).time_sum, self.passed())
    }
}
