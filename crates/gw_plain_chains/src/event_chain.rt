//! What each body of a future events chain does: the one in chunks, and the plain one.

ghost use Rattle.std.specs.Prelude.{◌≡◌, ◌≤◌, ◌<◌, ◌+◌};
ghost use Rattle.gw_plain_chains.specs.Calls.{with_event, without_due, after_call, answer_of};
ghost use Rattle.gw_members.specs.Members.{first_due};

use crate::calls::{CallTarget, ChainBody, ChainCall};
use gw_chains::Fec;
use gw_members::{Event, Memory, Tx};

/// A future events chain, whatever its body is. Nobody walks over it.
pub trait EventChain: ChainBody<Event> {
    /// Puts an event behind all that are scheduled for its time or earlier. There is room.
    fn schedule(&mut self, event: Event)
        requires { 0 < Self.room self.old }
        ensures state { Self.state self.new ≡ with_event event (Self.state self.old) }
        ensures room { Self.room self.old ≤ Self.room self.new + 1 };

    /// Takes the first, if it is scheduled for `time`, in clock units, or earlier.
    fn pop_due(&mut self, time: i64) -> Option<Tx>
        ensures first { result ≡ first_due time (Self.state self.old).members }
        ensures state { Self.state self.new ≡ without_due time (Self.state self.old) }
        ensures room { Self.room self.old ≤ Self.room self.new };
}

impl ChainBody<Event> for Fec {
    ghost state = { λ c. record { members = c.items; place = 0 } };

    ghost room = { λ c. c.room };

    fn reserve(&mut self, more: usize) -> Result<(), Memory> {
        Fec::reserve(self, more)
    }
}

impl EventChain for Fec {
    fn schedule(&mut self, event: Event) {
        Fec::schedule(self, event.tx, event.time);
    }

    fn pop_due(&mut self, time: i64) -> Option<Tx> {
        Fec::pop_due(self, time)
    }
}

/// A call on a future events chain.
#[derive(Clone, Copy, PartialEq, Eq)]
pub enum EventCall {
    /// An event is scheduled.
    Schedule(Event),
    /// The first is taken, if it is scheduled for this time, in clock units, or earlier.
    PopDue(i64),
}

impl ChainCall<Event> for EventCall {
    ghost after = { after_call };

    ghost answer = { answer_of };
}

impl<C: EventChain> CallTarget<Event, EventCall> for C {
    fn make_call(&mut self, call: EventCall) -> Option<Tx> {
        match call {
            EventCall::Schedule(event) => {
                self.schedule(event);
                None
            }
            EventCall::PopDue(time) => self.pop_due(time),
        }
    }
}
