//! User chains: room to join one, and members that leave one (GPSS World Reference Manual, "LINK" and "UNLINK").

ghost use Rattle.std.specs.Prelude.{◌≡◌, ◌≤◌, ◌<◌, ◌+◌, ◌^◌, length, OnOk};
ghost use Rattle.gw_num.specs.Table.{at};
ghost use Rattle.gw_step.specs.State.{user_chain};
ghost use Rattle.gw_step.specs.Blocks as model;
ghost use Rattle.gw_machine.specs.View.{state_of, entity_count};
ghost use Rattle.gw_machine.specs.Frames.{OnlyMembersLeave};
ghost use Rattle.gw_machine.specs.Leaving.{first_leaves};

use crate::machine::Machine;
use gw_members::Memory;

impl Machine {
    /// Makes room for one more member of a user chain.
    ///
    /// It fails for want of memory.
    pub fn reserve_link(&mut self, chain: u16) -> Result<(), Memory>
        requires chain { chain < entity_count self.old }
        ensures state { state_of self.new ≡ state_of self.old }
        ensures room { OnOk result (0 < at 0 self.new.chains.rooms chain) }
        ensures frame { self.new ≡ record self.old { chains = self.new.chains } }
    {
        self.chains.reserve_link(chain, 1)
    }

    /// How many members a user chain has.
    pub fn members(&self, chain: u16) -> usize
        requires chain { chain < entity_count self.now }
        ensures value { result ≡ length (user_chain chain (state_of self.now)) }
        ensures few { result ≤ 2 ^ 62 }
    {
        self.chains.members(chain)
    }

    /// The first member of a user chain, if there is one, leaves it to go to a block, and joins the current events chain,
    /// behind its peers; it enters no block, and its current one stays.
    fn unlink_first(&mut self, chain: u16, target: u16)
        requires chain { chain < entity_count self.old }
        requires room { 0 < self.old.current_events.room }
        ensures state { state_of self.new ≡ first_leaves chain target (state_of self.old) }
        ensures room { self.old.current_events.room ≤ self.new.current_events.room + 1 }
        ensures frame { OnlyMembersLeave self.old self.new }
    {
        if let Some(tx) = self.chains.unlink(chain) {
            let mut member = *self.transactions.get(tx);
            member.next = target;
            self.transactions.set(tx, member);
            self.transactions.put_chain(tx, None);
            self.current_events.insert_behind(tx, member.priority);
        }
    }

    /// So many members of a user chain, as far as it has them, leave it to go to a block, one after the other from the
    /// front, and join the current events chain, each behind its peers. There is room.
    pub fn unlink(&mut self, chain: u16, target: u16, count: usize)
        requires chain { chain < entity_count self.old }
        requires room { count ≤ self.old.current_events.room }
        ensures state { state_of self.new ≡ model.unlink_members count chain target (state_of self.old) }
        ensures room { self.old.current_events.room ≤ self.new.current_events.room + count }
        ensures frame { OnlyMembersLeave self.old self.new }
    {
        for _ in 0..count {
            self.unlink_first(chain, target);
        }
    }
}
