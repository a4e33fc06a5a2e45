//! What a machine holds before anything is scheduled.

ghost use Rattle.std.specs.Prelude.{◌≡◌, ◌≤◌, [], ◌∷◌, None, replicate, IfOk};
ghost use Rattle.gw_step.specs.Start.{no_counts};
ghost use Rattle.gw_transactions.specs.Transactions.{IsSound};
ghost use Rattle.gw_machine.specs.EntityTables.{AreAtStart};

use crate::entity_tables::EntityTables;
use gw_chains::Waits;
use gw_members::Memory;
use gw_object::Object;
use gw_transactions::Transactions;
use gw_user_chains::UserChains;
use std::alloc::Global;

/// A table of so many counts, each 0.
fn zeros(alloc: Global, n: usize) -> Result<Vec<u64>, Memory>
    ensures { IfOk result (λ v. v.items ≡ replicate n 0) }
{
    vec![in alloc; 0u64; n]
}

/// What is kept of the blocks and the entities of an object.
#[derive(Drop)]
pub(crate) struct ObjectTables {
    /// The arrivals scheduled so far, for each GENERATE block.
    pub scheduled: Vec<u64>,
    /// The entries so far, for each block.
    pub entries: Vec<u64>,
    /// The entities.
    pub entities: EntityTables,
}

impl ObjectTables {
    /// Those to which nothing happened. It fails for want of memory.
    pub fn new(alloc: Global, object: &Object) -> Result<ObjectTables, Memory>
        ensures scheduled { IfOk result (λ t. t.scheduled.items ≡ no_counts object.now) }
        ensures entries { IfOk result (λ t. t.entries.items ≡ no_counts object.now) }
        ensures entities { IfOk result (λ t. AreAtStart object.now.entities t.entities) }
    {
        let blocks = object.parts().blocks.as_slice();
        let scheduled = zeros(alloc, blocks.len() + 1)?;
        let entries = zeros(alloc, blocks.len() + 1)?;
        let entities = EntityTables::new(alloc, object)?;
        Ok(ObjectTables {
            scheduled,
            entries,
            entities,
        })
    }
}

/// Delay lists, and user chains.
#[derive(Drop)]
pub(crate) struct WaitingLists {
    /// The delay lists and the retry list.
    pub waits: Waits,
    /// The user chains, each by its number as an entity.
    pub chains: UserChains,
}

impl WaitingLists {
    /// Those with no member, for so many entities. It fails for want of memory.
    fn new(alloc: Global, entities: usize) -> Result<WaitingLists, Memory>
        ensures waits { IfOk result (λ l. l.waits.lists ≡ replicate entities []) }
        ensures retry { IfOk result (λ l. l.waits.retry ≡ []) }
        ensures chains { IfOk result (λ l. l.chains.lists ≡ replicate entities []) }
    {
        let waits = Waits::new(alloc, entities)?;
        match UserChains::new(alloc, entities) {
            Ok(chains) => Ok(WaitingLists { waits, chains }),
            Err(memory) => {
                drop(waits);
                Err(memory)
            }
        }
    }
}

/// Transactions, and the lists on which they may wait.
#[derive(Drop)]
pub(crate) struct Residents {
    /// The live transactions.
    pub transactions: Transactions,
    /// Where they may wait for an entity.
    pub lists: WaitingLists,
}

impl Residents {
    /// No transaction, where each would have so many slots for parameters, and lists for so many entities. It fails for want
    /// of memory.
    pub fn new(alloc: Global, slots: u8, entities: usize) -> Result<Residents, Memory>
        requires slots { slots ≤ 64 }
        ensures none { IfOk result (λ r. r.transactions.txs ≡ None ∷ []) }
        ensures last { IfOk result (λ r. r.transactions.last ≡ slots) }
        ensures sound { IfOk result (λ r. IsSound r.transactions) }
        ensures waits { IfOk result (λ r. r.lists.waits.lists ≡ replicate entities []) }
        ensures retry { IfOk result (λ r. r.lists.waits.retry ≡ []) }
        ensures chains { IfOk result (λ r. r.lists.chains.lists ≡ replicate entities []) }
    {
        let transactions = Transactions::new(alloc, slots)?;
        match WaitingLists::new(alloc, entities) {
            Ok(lists) => Ok(Residents {
                transactions,
                lists,
            }),
            Err(memory) => {
                drop(transactions);
                Err(memory)
            }
        }
    }
}
