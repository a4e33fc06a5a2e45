//! At which blocks the members of a long delay list wait, and how many at each.

ghost use Rattle.std.specs.Prelude.{◌≡◌, ◌≤◌, ◌<◌, ◌+◌, ◌^◌, ◌⊎◌, ℕ, [], Some, option_map, map, vec_len, MatchOption, IfOk, OnOk, true, false};
ghost use Rattle.gw_num.specs.Table.{at};
ghost use Rattle.gw_machine.specs.Wants.{AreTold, CountsEntry, CountsLeaver, CountsNewcomer, IsAt, JoinsIfKnown, KeepsOthers, LeavesIfKnown, want_count, AllCountFewer, KeepsEntries};
ghost use Rattle.gw_machine.specs.Known.{wants_of};

use crate::machine::entry_or_none;
use gw_members::{Memory, Tx};
use std::alloc::Global;
use std::marker::Model;

/// Those of a delay list who want to enter one block.
#[derive(Clone, Copy, PartialEq, Eq)]
pub(crate) struct Want {
    /// The block, by its number from 1.
    pub block: u16,
    /// How many want to enter it.
    pub waiting: usize,
    /// How many entries of the block it was told of: where the block has more, one who is counted may have entered.
    pub entries: u64,
}

/// What is known of those who wait on delay lists: of each entity by its number how many want to enter each block. A list of
/// which nothing is known has no wants.
///
/// It is a help, and no more: where nothing is known, a machine looks at those who wait (ours: docs/DECISIONS.md).
#[derive(Drop)]
pub(crate) struct Wants {
    // Those of each list, or none, where nothing is known of any.
    lists: Vec<Vec<Want>>,
    // Where wants get their memory.
    alloc: Global,
}

impl Model for Wants {
    ghost use Rattle.std.specs.Prelude.{List, map};
    ghost use Rattle.gw_machine.specs.declared.wants.Want.{Want};
    ghost use Rattle.gw_machine.specs.Known.{wants_of};

    ghost Value = { List (List Want) };

    ghost view = { λ w. map wants_of w.lists.items };
}

/// Where those are counted who want to enter a block, and are so many or more; none where nowhere.
fn place_of(wants: &[Want], block: u16, least: usize) -> Option<usize>
    ensures { MatchOption result (AllCountFewer block least wants.now) (λ i. IsAt block least i wants.now) }
{
    for i in 0..wants.len() {
        let want = wants[i];
        if want.block == block && least <= want.waiting {
            return Some(i);
        }
    }
    None
}

/// One more wants to enter the block of a want, which has so many entries so far.
fn one_more(want: Want, entries: u64) -> Want
    requires few { want.waiting ≤ 2 ^ 62 }
    ensures block { result.block ≡ want.block }
    ensures waiting { result.waiting ≡ want.waiting + 1 }
    ensures entries { KeepsEntries entries want result }
{
    Want {
        block: want.block,
        waiting: want.waiting + 1,
        entries: if want.waiting == 0 {
            entries
        } else {
            want.entries
        },
    }
}

/// One more wants to enter a block, which has so many entries so far. It fails for want of memory.
pub(crate) fn count_newcomer(wants: &mut Vec<Want>, block: u16, entries: u64) -> Result<(), Memory>
    requires few { want_count block wants.old.items ≤ 2 ^ 62 }
    ensures { IfOk result (λ done. CountsNewcomer block entries wants.old.items wants.new.items) }
{
    match place_of(wants.as_slice(), block, 0) {
        Some(i) => wants[i] = one_more(wants[i], entries),
        None => wants.push(Want {
            block,
            waiting: 1,
            entries,
        })?,
    }
    Ok(())
}

/// Whether each want was told of all entries of its block.
pub(crate) fn are_told(wants: &[Want], entries: &[u64]) -> bool
    ensures { result ≡ true → AreTold entries.now wants.now }
{
    for want in wants {
        if want.waiting != 0 && want.entries != entry_or_none(entries, want.block as usize) {
            return false;
        }
    }
    true
}

/// One more waits on a list, and wants to enter a block; each block has so many entries so far. Where the wants of the list
/// weren't told of all, or there is no memory, nothing is known any longer.
#[cold]
fn join_known(wants: &mut Vec<Want>, block: u16, entries: &[u64])
    requires few { AreTold entries.now wants.old.items → want_count block wants.old.items ≤ 2 ^ 62 }
    ensures { JoinsIfKnown block (at 0 entries.now block) wants.old.items wants.new.items }
{
    if wants.is_empty() {
        return;
    }
    if !are_told(wants.as_slice(), entries) {
        wants.clear();
        return;
    }
    let so_far = entry_or_none(entries, block as usize);
    if count_newcomer(wants, block, so_far).is_err() {
        wants.clear();
    }
}

/// One fewer wants to enter the block at a place, if all of its entries were told of; else nothing is known any longer.
fn lower_at(wants: &mut Vec<Want>, i: usize, block: u16, entries: u64)
    requires { IsAt block 1 i wants.old.items }
    ensures { (wants.new.items ≡ [])
        ⊎ CountsLeaver block entries wants.old.items wants.new.items }
{
    if wants[i].entries == entries {
        wants[i].waiting -= 1;
    } else {
        wants.clear();
    }
}

/// One who wanted to enter a block, which has so many entries so far, waits no more. Where it isn't known that this one was
/// counted, nothing is known any longer.
#[cold]
fn count_leaver(wants: &mut Vec<Want>, block: u16, entries: u64)
    ensures { (wants.new.items ≡ [])
        ⊎ CountsLeaver block entries wants.old.items wants.new.items }
{
    match place_of(wants.as_slice(), block, 1) {
        Some(i) => lower_at(wants, i, block, entries),
        None => wants.clear(),
    }
}

/// The entry at a place is told that its block has one more entry, if all before were told.
fn raise_at(wants: &mut Vec<Want>, i: usize, block: u16, entries: u64)
    requires there { IsAt block 1 i wants.old.items }
    requires few { entries < 2 ^ 60 }
    ensures { CountsEntry block entries wants.old.items wants.new.items }
{
    if wants[i].entries == entries {
        wants[i].entries = entries + 1;
    }
}

/// Somebody who isn't counted enters a block, which has so many entries before.
#[cold]
fn count_entry(wants: &mut Vec<Want>, block: u16, entries: u64)
    requires few { entries < 2 ^ 60 }
    ensures { CountsEntry block entries wants.old.items wants.new.items }
{
    if let Some(i) = place_of(wants.as_slice(), block, 1) {
        raise_at(wants, i, block, entries);
    }
}

/// Lists are added, of which nothing is known, until there is one for an entity. It fails for want of memory.
fn reach(lists: &mut Vec<Vec<Want>>, alloc: Global, e: u16) -> Result<(), Memory>
    ensures there { OnOk result (e < vec_len lists.new) }
    ensures known { (k : ℕ) → at [] (map wants_of lists.new.items) k
        ≡ at [] (map wants_of lists.old.items) k }
{
    while lists.len() <= e as usize {
        lists.push(Vec::new(alloc))?;
    }
    Ok(())
}

/// Whether a transaction is the active one.
fn is_active(active: Option<Tx>, tx: Tx) -> bool
    ensures { result ≡ true → option_map (λ t. t.number) active ≡ Some tx.number }
{
    match active {
        Some(it) => it.number == tx.number,
        None => false,
    }
}

/// Where it isn't so, nothing is known any longer of any list.
#[cold]
fn forget_unless(lists: &mut Vec<Vec<Want>>, so: bool)
    ensures kept { so ≡ true → lists.new.items ≡ lists.old.items }
    ensures forgotten { so ≡ false → lists.new.items ≡ [] }
{
    if !so {
        lists.clear();
    }
}

impl Wants {
    /// Nothing is known of any list. It takes no memory.
    pub fn new(alloc: Global) -> Wants
        ensures { result ≡ [] }
    {
        Wants {
            lists: Vec::new(alloc),
            alloc,
        }
    }

    /// Where wants get their memory.
    pub fn alloc(&self) -> Global {
        self.alloc
    }

    /// Those who wait for an entity, as far as they are known.
    pub fn of(&self, e: u16) -> &[Want]
        ensures { result.now ≡ at [] self.now e }
    {
        if (e as usize) < self.lists.len() {
            self.lists[e as usize].as_slice()
        } else {
            &[]
        }
    }

    /// One more waits for an entity, and wants to enter a block; each block has so many entries so far.
    #[inline(always)]
    pub fn add_newcomer(&mut self, e: u16, block: u16, entries: &[u64])
        requires few { AreTold entries.now (at [] self.old e)
            → want_count block (at [] self.old e) ≤ 2 ^ 62 }
        ensures others { KeepsOthers e self.old self.new }
        ensures here { JoinsIfKnown block (at 0 entries.now block)
            (at [] self.old e) (at [] self.new e) }
    {
        if (e as usize) < self.lists.len() {
            join_known(&mut self.lists[e as usize], block, entries);
        }
    }

    /// One who waited for an entity, and wanted to enter a block, which has so many entries so far, waits no more.
    #[inline(always)]
    pub fn drop_leaver(&mut self, e: u16, block: u16, entries: u64)
        ensures others { KeepsOthers e self.old self.new }
        ensures here { LeavesIfKnown block entries (at [] self.old e) (at [] self.new e) }
    {
        if (e as usize) < self.lists.len() {
            count_leaver(&mut self.lists[e as usize], block, entries);
        }
    }

    /// One who waited for an entity, and isn't counted any longer, enters a block, which has so many entries before.
    #[inline(always)]
    pub fn tell_entry(&mut self, e: u16, block: u16, entries: u64)
        requires few { entries < 2 ^ 60 }
        ensures others { KeepsOthers e self.old self.new }
        ensures here { CountsEntry block entries (at [] self.old e) (at [] self.new e) }
    {
        if (e as usize) < self.lists.len() {
            count_entry(&mut self.lists[e as usize], block, entries);
        }
    }

    /// Where another than the active transaction is about to have another next block, nothing is known any longer.
    #[inline(always)]
    pub fn forget_unless_active(&mut self, active: Option<Tx>, tx: Tx)
        ensures { (self.new ≡ []) ⊎ ((self.new ≡ self.old)
            × (option_map (λ t. t.number) active ≡ Some tx.number)) }
    {
        if !self.lists.is_empty() {
            forget_unless(&mut self.lists, is_active(active, tx));
        }
    }

    /// These are known of who waits for an entity; nothing is where there is no memory for it.
    pub fn put(&mut self, e: u16, wants: Vec<Want>)
        ensures others { KeepsOthers e self.old self.new }
        ensures here { (at [] self.new e ≡ at [] self.old e) ⊎ (at [] self.new e ≡ wants.items) }
    {
        if reach(&mut self.lists, self.alloc, e).is_ok() {
            self.lists[e as usize] = wants;
        }
    }
}
