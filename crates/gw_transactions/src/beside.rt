//! The parameters of transactions, which lie beside their attributes: where there are none, nothing is kept.

ghost use Rattle.std.specs.Prelude.{◌≡◌, ◌≢◌, ◌≤◌, ◌<◌, ◌+◌, ◌-◌, ℕ, None, Some, OnOk, OnErr};
ghost use Rattle.slab.specs.Slab.{get, slab_len, ContainsKey, HasRoomFor};
ghost use Rattle.gw_num.specs.Table.{put};
ghost use Rattle.gw_transactions.specs.Parameters.{no_parameters, none_of};
ghost use Rattle.gw_transactions.specs.Slots.{row_at};

use crate::Parameters;
use gw_members::Memory;
use slab::Slab;

/// Makes room for the parameters of so many more transactions, where they have any.
#[inline(always)]
pub(crate) fn reserve_beside(
    beside: &mut Slab<Parameters>,
    unset: &Parameters,
    more: usize,
) -> Result<(), Memory>
    ensures rest { beside.new ≡ record beside.old { capacity = beside.new.capacity } }
    ensures room { OnOk result (0 < unset.now.last → HasRoomFor beside.new more) }
    ensures kept { beside.old.capacity ≤ beside.new.capacity }
    ensures refused { OnErr result (0 < unset.now.last) }
    ensures lacked { OnErr result (beside.old.capacity < slab_len beside.old + more) }
{
    if unset.is_empty() {
        return Ok(());
    }
    beside.reserve(more)
}

/// Keeps the parameters of one more transaction, if it has any, and answers their key. There is room.
#[inline(always)]
pub(crate) fn keep(beside: &mut Slab<Parameters>, parameters: Parameters) -> usize
    requires room { 0 < parameters.last → HasRoomFor beside.old 1 }
    requires none { parameters.last ≡ 0 → (key : ℕ) → get beside.old key ≡ None }
    ensures row { row_at beside.new result ≡ parameters }
    ensures there { 0 < parameters.last → ContainsKey beside.new result }
    ensures vacant { get beside.old result ≡ None }
    ensures others { (key : ℕ) → key ≢ result → get beside.new key ≡ get beside.old key }
    ensures none { parameters.last ≡ 0 → beside.new ≡ beside.old }
    ensures len { 0 < parameters.last → slab_len beside.new ≡ slab_len beside.old + 1 }
    ensures capacity { beside.new.capacity ≡ beside.old.capacity }
{
    if parameters.is_empty() {
        return 0;
    }
    beside.insert_reserved(parameters)
}

/// The parameters under a key; where there are none, those of which none is set.
pub(crate) fn row<'a>(
    beside: &'a Slab<Parameters>,
    unset: &'a Parameters,
    key: usize,
) -> &'a Parameters
    requires { unset.now ≡ none_of unset.now.last }
    ensures values { result.now.values ≡ (row_at beside.now key).values }
    ensures last { (row_at beside.now key).last ≡ unset.now.last → result.now.last ≡ unset.now.last }
{
    match beside.get(key) {
        Some(parameters) => parameters,
        None => unset,
    }
}

/// Sets one of the parameters under a key. They are there.
pub(crate) fn set(beside: &mut Slab<Parameters>, key: usize, number: u8, value: i64)
    requires there { ContainsKey beside.old key }
    requires number { (1 ≤ number) × (number ≤ (row_at beside.old key).last) }
    ensures values { (row_at beside.new key).values
        ≡ put None (row_at beside.old key).values number (Some value) }
    ensures last { (row_at beside.new key).last ≡ (row_at beside.old key).last }
    ensures there { ContainsKey beside.new key }
    ensures others { (other : ℕ) → other ≢ key → get beside.new other ≡ get beside.old other }
    ensures len { slab_len beside.new ≡ slab_len beside.old }
    ensures capacity { beside.new.capacity ≡ beside.old.capacity }
{
    beside[key].set(number, value);
}

/// Lets go of the parameters under a key, if there are any.
pub(crate) fn forget(beside: &mut Slab<Parameters>, key: usize)
    ensures none { get beside.new key ≡ None }
    ensures others { (other : ℕ) → other ≢ key → get beside.new other ≡ get beside.old other }
    ensures len { ContainsKey beside.old key → slab_len beside.new + 1 ≡ slab_len beside.old }
    ensures less { slab_len beside.new ≤ slab_len beside.old }
    ensures capacity { beside.new.capacity ≡ beside.old.capacity }
{
    let _ = beside.try_remove(key);
}
