//! What each body of a current events chain does: the one in buckets, and the plain one.

ghost use Rattle.std.specs.Prelude.{◌≡◌, ◌≤◌, ◌<◌, ◌+◌};
ghost use Rattle.gw_members.specs.Members.{first_tx};
ghost use Rattle.gw_plain_chains.specs.PriorityCalls.{with_behind, with_ahead, without_first, after_call, answer_of};

use crate::calls::{CallTarget, ChainBody, ChainCall};
use gw_chains::Cec;
use gw_members::{Member, Memory, Tx};

/// A current events chain, whatever its body is. Nobody walks over it.
pub trait PriorityChain: ChainBody<Member> {
    /// Puts a member behind all of equal or higher priority. There is room.
    fn insert_behind(&mut self, member: Member)
        requires { 0 < Self.room self.old }
        ensures state { Self.state self.new ≡ with_behind member (Self.state self.old) }
        ensures room { Self.room self.old ≤ Self.room self.new + 1 };

    /// Puts a member ahead of all of equal or lower priority. There is room.
    fn insert_ahead(&mut self, member: Member)
        requires { 0 < Self.room self.old }
        ensures state { Self.state self.new ≡ with_ahead member (Self.state self.old) }
        ensures room { Self.room self.old ≤ Self.room self.new + 1 };

    /// Takes the first, if there is one.
    fn pop_first(&mut self) -> Option<Tx>
        ensures first { result ≡ first_tx (Self.state self.old).members }
        ensures state { Self.state self.new ≡ without_first (Self.state self.old) }
        ensures room { Self.room self.old ≤ Self.room self.new };
}

impl ChainBody<Member> for Cec {
    ghost state = { λ c. record { members = c.items; place = 0 } };

    ghost room = { λ c. c.room };

    fn reserve(&mut self, more: usize) -> Result<(), Memory> {
        Cec::reserve(self, more)
    }
}

impl PriorityChain for Cec {
    fn insert_behind(&mut self, member: Member) {
        Cec::insert_behind(self, member.tx, member.priority);
    }

    fn insert_ahead(&mut self, member: Member) {
        Cec::insert_ahead(self, member.tx, member.priority);
    }

    fn pop_first(&mut self) -> Option<Tx> {
        Cec::pop_first(self)
    }
}

/// A call on a current events chain.
#[derive(Clone, Copy, PartialEq, Eq)]
pub enum PriorityCall {
    /// A member joins behind its peers.
    InsertBehind(Member),
    /// A member joins ahead of its peers.
    InsertAhead(Member),
    /// The first is taken.
    PopFirst,
}

impl ChainCall<Member> for PriorityCall {
    ghost after = { after_call };

    ghost answer = { answer_of };
}

impl<C: PriorityChain> CallTarget<Member, PriorityCall> for C {
    fn make_call(&mut self, call: PriorityCall) -> Option<Tx> {
        match call {
            PriorityCall::InsertBehind(member) => {
                self.insert_behind(member);
                None
            }
            PriorityCall::InsertAhead(member) => {
                self.insert_ahead(member);
                None
            }
            PriorityCall::PopFirst => self.pop_first(),
        }
    }
}
