//! What each body of a delay list does: the one in buckets, and the plain one.

ghost use Rattle.std.specs.Prelude.{◌≡◌, ◌≤◌, ◌<◌, ◌+◌, length};
ghost use Rattle.gw_plain_chains.specs.DelayCalls.{with_member, without_member, past_member, without_current, after_call, answer_of};
ghost use Rattle.gw_members.specs.Members.{tx_at};

use crate::calls::{CallTarget, ChainBody, ChainCall};
use gw_chains::DelayList;
use gw_members::{Member, Memory, Tx};

/// A delay list with a walk over it, whatever its body is.
pub trait DelayChain: ChainBody<Member> {
    /// Puts a member behind all of equal or higher priority. There is room. The walk is at the first again.
    fn insert_behind(&mut self, member: Member)
        requires { 0 < Self.room self.old }
        ensures state { Self.state self.new ≡ with_member member (Self.state self.old) }
        ensures room { Self.room self.old ≤ Self.room self.new + 1 };

    /// The transaction at this place, from 0, if there is one.
    fn get(&self, place: usize) -> Option<Tx>
        ensures { result ≡ tx_at place (Self.state self.now).members };

    /// Removes the member at this place, from 0. There is one. The walk is at the first again.
    fn remove(&mut self, place: usize)
        requires { place < length (Self.state self.old).members }
        ensures state { Self.state self.new ≡ without_member place (Self.state self.old) }
        ensures room { Self.room self.old ≤ Self.room self.new };

    /// Begins a walk at the first member.
    fn start_walk(&mut self)
        ensures state { Self.state self.new ≡ record (Self.state self.old) { place = 0 } }
        ensures room { Self.room self.old ≤ Self.room self.new };

    /// The transaction to which the walk has come, if it is not at the end.
    fn current(&self) -> Option<Tx>
        ensures { result ≡ tx_at (Self.state self.now).place (Self.state self.now).members };

    /// The walk goes on past the member to which it has come. It is not at the end.
    fn pass(&mut self)
        requires { (Self.state self.old).place < length (Self.state self.old).members }
        ensures state { Self.state self.new ≡ past_member (Self.state self.old) }
        ensures room { Self.room self.old ≤ Self.room self.new };

    /// Takes out the member to which the walk has come, which is then at the next. It is not at the end.
    fn take(&mut self)
        requires { (Self.state self.old).place < length (Self.state self.old).members }
        ensures state { Self.state self.new ≡ without_current (Self.state self.old) }
        ensures room { Self.room self.old ≤ Self.room self.new };
}

impl ChainBody<Member> for DelayList {
    ghost state = { λ l. record { members = l.members; place = l.place } };

    ghost room = { λ l. l.room };

    fn reserve(&mut self, more: usize) -> Result<(), Memory> {
        DelayList::reserve(self, more)
    }
}

impl DelayChain for DelayList {
    fn insert_behind(&mut self, member: Member) {
        DelayList::insert_behind(self, member.tx, member.priority);
    }

    fn get(&self, place: usize) -> Option<Tx> {
        DelayList::get(self, place)
    }

    fn remove(&mut self, place: usize) {
        DelayList::remove(self, place);
    }

    fn start_walk(&mut self) {
        DelayList::start_walk(self);
    }

    fn current(&self) -> Option<Tx> {
        DelayList::current(self)
    }

    fn pass(&mut self) {
        DelayList::pass(self);
    }

    fn take(&mut self) {
        DelayList::take(self);
    }
}

/// A call on a delay list.
#[derive(Clone, Copy, PartialEq, Eq)]
pub enum DelayCall {
    /// A member joins behind its peers.
    Join(Member),
    /// The member at this place, from 0, is removed, if there is one.
    Remove(usize),
    /// A walk begins at the first member.
    StartWalk,
    /// The walk goes on past the member to which it has come, if it is not at the end.
    Pass,
    /// The walk takes out the member to which it has come, if it is not at the end.
    Take,
}

impl ChainCall<Member> for DelayCall {
    ghost after = { after_call };

    ghost answer = { answer_of };
}

impl<C: DelayChain> CallTarget<Member, DelayCall> for C {
    fn make_call(&mut self, call: DelayCall) -> Option<Tx> {
        match call {
            DelayCall::Join(member) => {
                self.insert_behind(member);
                None
            }
            DelayCall::Remove(place) => {
                let tx = self.get(place)?;
                self.remove(place);
                Some(tx)
            }
            DelayCall::StartWalk => {
                self.start_walk();
                None
            }
            DelayCall::Pass => {
                let tx = self.current()?;
                self.pass();
                Some(tx)
            }
            DelayCall::Take => {
                let tx = self.current()?;
                self.take();
                Some(tx)
            }
        }
    }
}
