//! Delay lists, user chains and assemblies worked by hand, and chains with as many as may live.

ghost use Rattle.std.specs.Prelude.{◌≡◌, ◌<◌, length, IfOk};

use gw_assemblies::{Assemblies, Assembly};
use gw_chains::{Cec, Waits};
use gw_members::{Memory, Tx};
use gw_user_chains::UserChains;
use std::alloc::Global;
use std::test::Fail;
use std::time::{Duration, Instant};

/// The most transactions that may live at once.
const MOST: u64 = 65_536;

fn tx(number: u64) -> Tx {
    Tx { place: 0, number }
}

/// Puts a transaction on the delay list of an entity.
fn wait(waits: &mut Waits, entity: u16, number: u64, priority: i32) -> Result<(), Memory>
    requires { entity < length waits.old.lists }
    ensures { length waits.new.lists ≡ length waits.old.lists }
{
    waits.reserve_wait(entity, 1)?;
    waits.push_wait(entity, tx(number), priority);
    Ok(())
}

/// Whether the delay list of an entity has these numbers, in order.
fn is_list(waits: &Waits, entity: u16, numbers: &[u64]) -> bool
    requires { entity < length waits.now.lists }
{
    if waits.waiting_len(entity) != numbers.len() {
        return false;
    }
    for i in 0..numbers.len() {
        if waits.waiter(entity, i) != Some(tx(numbers[i])) {
            return false;
        }
    }
    waits.waiter(entity, numbers.len()).is_none()
}

/// Removes the member at a place, from 0, of the delay list of an entity, if there is one.
fn remove(waits: &mut Waits, entity: u16, place: usize) -> bool
    requires { entity < length waits.old.lists }
    ensures { length waits.new.lists ≡ length waits.old.lists }
{
    if waits.waiting_len(entity) <= place {
        return false;
    }
    waits.remove(entity, place);
    true
}

/// Which answers are right of lists on which 2, 4 and 1 wait for entity 3, 3 waits for entity 7, and one for anything.
fn delay_lists(waits: &mut Waits) -> [bool; 8]
    requires { 7 < length waits.old.lists }
{
    [
        waits.len() == 5,
        waits.retry_len() == 1,
        is_list(waits, 3, &[2, 4, 1]),
        is_list(waits, 7, &[3]),
        remove(waits, 3, 1),
        waits.len() == 4,
        is_list(waits, 3, &[2, 1]),
        is_list(waits, 7, &[3]),
    ]
}

/// Puts transactions on those lists.
fn put_waiters(waits: &mut Waits) -> Result<(), Memory>
    requires { 7 < length waits.old.lists }
    ensures { length waits.new.lists ≡ length waits.old.lists }
{
    waits.reserve(1)?;
    waits.push_retry(tx(5), 2);
    wait(waits, 3, 1, 0)?;
    wait(waits, 3, 2, 5)?;
    wait(waits, 7, 3, 1)?;
    wait(waits, 3, 4, 5)
}

#[test]
fn delay_lists_keep_their_entities_apart(rt: HostRuntime) -> Result<(), Fail> {
    let mut waits = Waits::new(rt.alloc(), 8)?;
    put_waiters(&mut waits)?;
    assert!(rt; delay_lists(&mut waits) == [true; 8]);
    Ok(())
}

/// Moves the whole retry list to a chain; whether it was left empty.
fn wake(waits: &mut Waits, chain: &mut Cec) -> Result<bool, Memory> {
    chain.reserve(waits.retry_len())?;
    waits.wake_all(chain);
    Ok(waits.retry_len() == 0)
}

/// Puts a transaction at the front of a user chain, or at its back.
fn link(chains: &mut UserChains, chain: u16, number: u64, is_front: bool) -> Result<(), Memory>
    requires { chain < length chains.old.lists }
    ensures { length chains.new.lists ≡ length chains.old.lists }
{
    chains.reserve_link(chain, 1)?;
    if is_front {
        chains.push_front(chain, tx(number));
    } else {
        chains.push_back(chain, tx(number));
    }
    Ok(())
}

/// Whether the members of a user chain have these numbers, in the order in which they are unlinked.
fn unlink_in_order(chains: &mut UserChains, chain: u16, numbers: &[u64]) -> bool
    requires { chain < length chains.old.lists }
    ensures { length chains.new.lists ≡ length chains.old.lists }
{
    if chains.members(chain) != numbers.len() {
        return false;
    }
    for number in numbers {
        if chains.unlink(chain) != Some(tx(*number)) {
            return false;
        }
    }
    chains.unlink(chain).is_none()
}

/// Which answers are right of chains of which 2 has the members 3, 1 and 2, and 6 the member 4.
fn two_chains(chains: &mut UserChains) -> [bool; 6]
    requires { 6 < length chains.old.lists }
{
    [
        chains.len() == 4,
        chains.members(6) == 1,
        chains.members(5) == 0,
        unlink_in_order(chains, 2, &[3, 1, 2]),
        unlink_in_order(chains, 6, &[4]),
        chains.len() == 0,
    ]
}

/// Links transactions to those chains.
fn put_members(chains: &mut UserChains) -> Result<(), Memory>
    requires { 6 < length chains.old.lists }
    ensures { length chains.new.lists ≡ length chains.old.lists }
{
    chains.reserve(4)?;
    link(chains, 2, 1, false)?;
    link(chains, 2, 2, false)?;
    link(chains, 2, 3, true)?;
    link(chains, 6, 4, true)
}

#[test]
fn user_chains_have_two_ends(rt: HostRuntime) -> Result<(), Fail> {
    let mut chains = UserChains::new(rt.alloc(), 7)?;
    put_members(&mut chains)?;
    assert!(rt; two_chains(&mut chains) == [true; 6]);
    Ok(())
}

/// The assembly of a set at a block, for which the transaction of that number waits until so many more have come.
fn assembly(block: u16, set: u64, first: u64, missing: u16) -> Assembly {
    Assembly {
        block,
        set,
        first: tx(first),
        missing,
    }
}

/// Assemblies that have begun in this order.
fn begun(alloc: Global, assemblies: &[Assembly]) -> Result<Assemblies, Memory> {
    let mut all = Assemblies::new(alloc);
    for assembly in assemblies {
        all.reserve(1)?;
        all.begin(*assembly);
    }
    Ok(all)
}

/// One more comes to the assembly of a set at a block; whether it had begun, and the one who comes is the last of it, and the
/// transaction of that number waits.
fn is_last(all: &mut Assemblies, block: u16, set: u64, first: u64) -> bool {
    match all.find(block, set) {
        Some(found) if found.missing == 1 => all.finish(block, set).first == tx(first),
        Some(_) => {
            all.come(block, set);
            false
        }
        None => false,
    }
}

/// Which answers are right of assemblies of set 1 at block 3 and at block 5, of which two and one are missing, and of set 2 at
/// block 3, of which one is missing.
fn three_assemblies(all: &mut Assemblies) -> [bool; 7] {
    [
        all.find(5, 2).is_none(),
        is_last(all, 3, 2, 9),
        all.find(3, 2).is_none(),
        !is_last(all, 3, 1, 7),
        all.find(5, 1) == Some(assembly(5, 1, 8, 1)),
        is_last(all, 3, 1, 7),
        is_last(all, 5, 1, 8),
    ]
}

#[test]
fn assemblies_are_of_a_block_and_a_set(rt: HostRuntime) -> Result<(), Fail> {
    let assemblies = [
        assembly(3, 1, 7, 2),
        assembly(5, 1, 8, 1),
        assembly(3, 2, 9, 1),
    ];
    let mut all = begun(rt.alloc(), &assemblies)?;
    assert!(rt; three_assemblies(&mut all) == [true; 7]);
    Ok(())
}

/// As many as may live join a chain, of equal priority.
fn crowd(chain: &mut Cec) -> Result<(), Memory> {
    for number in 0..MOST {
        chain.reserve(1)?;
        chain.insert_behind(tx(number), 0);
    }
    Ok(())
}

/// The first number, from 0 on, as which another one leaves the chain.
fn out_of_turn(chain: &mut Cec) -> Option<u64> {
    for number in 0..MOST {
        if chain.pop_first() != Some(tx(number)) {
            return Some(number);
        }
    }
    None
}

#[test]
fn as_many_as_may_live_join_behind_their_peers_within_a_second(
    rt: HostRuntime,
) -> Result<(), Fail> {
    let start = Instant::now(&rt)?;
    let mut chain = Cec::new(rt.alloc());
    crowd(&mut chain)?;
    assert!(rt; start.elapsed(&rt)? < Duration::from_secs(1));
    assert!(rt; out_of_turn(&mut chain).is_none() && chain.is_empty());
    Ok(())
}

/// As many as may live come to a retry list.
fn crowd_retry_list(waits: &mut Waits) -> Result<(), Memory> {
    for number in 0..MOST {
        waits.reserve_retry(1)?;
        waits.push_retry(tx(number), 0);
    }
    Ok(())
}

#[test]
fn as_many_as_may_live_wake_within_a_second(rt: HostRuntime) -> Result<(), Fail> {
    let mut waits = Waits::new(rt.alloc(), 0)?;
    crowd_retry_list(&mut waits)?;
    let mut chain = Cec::new(rt.alloc());
    let start = Instant::now(&rt)?;
    let are_woken = wake(&mut waits, &mut chain)?;
    assert!(rt; start.elapsed(&rt)? < Duration::from_secs(1));
    assert!(rt; are_woken && chain.len() == 65_536 && chain.pop_first() == Some(tx(0)));
    Ok(())
}

/// User chains with as many as may live on one of them.
fn crowded_user_chain(alloc: Global) -> Result<UserChains, Memory>
    ensures { IfOk result (λ c. length c.lists ≡ 2) }
{
    let mut chains = UserChains::new(alloc, 2)?;
    for number in 0..MOST {
        link(&mut chains, 1, number, false)?;
    }
    Ok(chains)
}

/// Unlinks as many as may live from one chain; how many are left.
fn unlink_all(chains: &mut UserChains) -> usize
    requires { 1 < length chains.old.lists }
{
    for _ in 0..MOST {
        let _ = chains.unlink(1);
    }
    chains.len()
}

#[test]
fn as_many_as_may_live_are_unlinked_within_a_second(rt: HostRuntime) -> Result<(), Fail> {
    let mut chains = crowded_user_chain(rt.alloc())?;
    let start = Instant::now(&rt)?;
    let left = unlink_all(&mut chains);
    assert!(rt; start.elapsed(&rt)? < Duration::from_secs(1));
    assert!(rt; left == 0);
    Ok(())
}
