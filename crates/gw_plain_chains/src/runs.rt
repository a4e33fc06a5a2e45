//! A chain of events that is kept in two runs, so that a newcomer among tens of thousands moves few of them: the settled
//! ones, and some recent ones, which join them many at a time.

ghost use Rattle.std.specs.Prelude.{◌≡◌, ◌≤◌, ◌<◌, ◌+◌, ◌-◌, ◌≤ℤ◌, [], All, int_lt, OnOk, OnErr, take, drop, option_copied};
ghost use Rattle.std.specs.VecDeque.{deque_len, deque_capacity};
ghost use Rattle.gw_plain_chains.specs.Orders.{IsInTime};
ghost use Rattle.gw_members.specs.Chain.{first, rest};
ghost use Rattle.gw_plain_chains.specs.Runs.{begins_recent};
ghost use Rattle.gw_plain_chains.specs.Runs.{most_recent, IsLaterAt, events_in, many_in, room_in, HaveSame, HaveAsMany, HaveCapacities};
ghost use Rattle.gw_members.specs.declared.tx.Event.{Event as DeclaredEvent};
ghost use Rattle.gw_members.specs.Members.{with_event};

use gw_chains::insert_reserved;
use gw_members::{Event, Memory};
use std::collections::VecDeque;

/// The most that are recent.
pub(crate) const MOST_RECENT: usize = 512;

/// Makes room for so many more members of both runs.
pub(crate) fn reserve(
    settled: &mut VecDeque<Event>,
    recent: &mut VecDeque<Event>,
    more: usize,
) -> Result<(), Memory>
    requires { many_in settled.old recent.old ≤ deque_capacity settled.old }
    ensures items { HaveSame settled.old recent.old settled.new recent.new }
    ensures len { HaveAsMany settled.old recent.old settled.new recent.new }
    ensures within { many_in settled.new recent.new ≤ deque_capacity settled.new }
    ensures room { OnOk result (more ≤ room_in settled.new recent.new) }
    ensures kept { room_in settled.old recent.old ≤ room_in settled.new recent.new }
    ensures refused { OnErr result (room_in settled.old recent.old < more) }
{
    if more == 0 {
        return Ok(());
    }
    settled.reserve(more.saturating_add(recent.len()))?;
    recent.reserve(MOST_RECENT.saturating_sub(recent.len()))
}

/// Whether the first of both runs is a recent one.
pub(crate) fn begins_recent(settled: &VecDeque<Event>, recent: &VecDeque<Event>) -> bool
    ensures { result ≡ begins_recent (λ e. e.time) settled.now.items recent.now.items }
{
    match (settled.front(), recent.front()) {
        (_, None) => false,
        (None, Some(_)) => true,
        (Some(old), Some(new)) => new.time < old.time,
    }
}

/// The first of both runs, if there is one.
#[tactic(auto, using(crate::proofs::Merging::first_when_recent, crate::proofs::Merging::first_when_settled))]
pub(crate) fn front<'a>(
    settled: &'a VecDeque<Event>,
    recent: &'a VecDeque<Event>,
) -> Option<&'a Event>
    requires { IsInTime (λ e. e.time) recent.now.items }
    ensures { option_copied result ≡ first (events_in settled.now recent.now) }
{
    if begins_recent(settled, recent) {
        recent.front()
    } else {
        settled.front()
    }
}

/// Takes the first of a run, if there is one.
fn pop_front(run: &mut VecDeque<Event>) -> Option<Event>
    ensures first { result ≡ first run.old.items }
    ensures rest { run.new.items ≡ rest run.old.items }
    ensures len { deque_len run.new ≤ deque_len run.old }
    ensures capacity { deque_capacity run.new ≡ deque_capacity run.old }
{
    run.pop_front()
}

/// Takes the first of both runs, if there is one.
#[tactic(auto, using(crate::proofs::Merging::first_when_recent, crate::proofs::Merging::first_when_settled, crate::proofs::Merging::rest_when_recent, crate::proofs::Merging::rest_when_settled, crate::proofs::Merging::rest_in_order))]
pub(crate) fn pop_first(
    settled: &mut VecDeque<Event>,
    recent: &mut VecDeque<Event>,
) -> Option<Event>
    requires { IsInTime (λ e. e.time) recent.old.items }
    ensures first { result ≡ first (events_in settled.old recent.old) }
    ensures rest { events_in settled.new recent.new ≡ rest (events_in settled.old recent.old) }
    ensures ordered { IsInTime (λ e. e.time) recent.new.items }
    ensures len { many_in settled.new recent.new ≤ many_in settled.old recent.old }
    ensures capacity { HaveCapacities settled.old recent.old settled.new recent.new }
{
    if begins_recent(settled, recent) {
        pop_front(recent)
    } else {
        pop_front(settled)
    }
}

/// Whether one event is scheduled for an earlier time than another.
fn is_earlier(one: Event, other: Event) -> bool
    ensures { result ≡ int_lt one.time other.time }
{
    one.time < other.time
}

/// How many of the first so many settled ones, in a row, are scheduled for the same time as an event or for an earlier one.
fn count_passed(settled: &VecDeque<Event>, unseen: usize, event: Event) -> usize
    requires { unseen ≤ deque_len settled.now }
    ensures bound { result ≤ unseen }
    ensures passed { All (λ (e : DeclaredEvent). e.time ≤ℤ event.time)
        (take result settled.now.items) }
    ensures next { IsLaterAt event.time unseen result settled.now.items }
{
    for i in 0..unseen {
        if is_earlier(event, settled[i]) {
            return i;
        }
    }
    unseen
}

/// Puts each recent one at its place among the settled ones. There is room.
pub(crate) fn settle(settled: &mut VecDeque<Event>, recent: &mut VecDeque<Event>)
    requires ordered { IsInTime (λ e. e.time) recent.old.items }
    requires room { many_in settled.old recent.old ≤ deque_capacity settled.old }
    ensures settled { settled.new.items ≡ events_in settled.old recent.old }
    ensures none_recent { recent.new.items ≡ [] }
    ensures len { deque_len settled.new ≡ many_in settled.old recent.old }
    ensures capacity { HaveCapacities settled.old recent.old settled.new recent.new }
{
    // Those settled that no recent one has passed yet stand first, and behind them those that are done.
    let mut unseen = settled.len();
    while let Some(event) = recent.pop_front() {
        let passed = count_passed(settled, unseen, event);
        settled.rotate_left(passed);
        settled.push_back_reserved(event);
        unseen -= passed;
    }
    settled.rotate_left(unseen);
}

/// Settles the recent ones, where they are too many for one more.
fn make_way(settled: &mut VecDeque<Event>, recent: &mut VecDeque<Event>)
    requires ordered { IsInTime (λ e. e.time) recent.old.items }
    requires room { many_in settled.old recent.old ≤ deque_capacity settled.old }
    ensures items { events_in settled.new recent.new ≡ events_in settled.old recent.old }
    ensures ordered { IsInTime (λ e. e.time) recent.new.items }
    ensures few { deque_len recent.new < most_recent }
    ensures len { many_in settled.new recent.new ≡ many_in settled.old recent.old }
    ensures capacity { HaveCapacities settled.old recent.old settled.new recent.new }
{
    if recent.len() >= MOST_RECENT {
        settle(settled, recent);
    }
}

/// Puts an event behind all that are scheduled for the same time or an earlier one. There is room.
pub(crate) fn insert(settled: &mut VecDeque<Event>, recent: &mut VecDeque<Event>, event: Event)
    requires ordered { IsInTime (λ e. e.time) recent.old.items }
    requires room { many_in settled.old recent.old < deque_capacity settled.old }
    requires run { most_recent ≤ deque_capacity recent.old }
    ensures items { events_in settled.new recent.new
        ≡ with_event event (events_in settled.old recent.old) }
    ensures ordered { IsInTime (λ e. e.time) recent.new.items }
    ensures len { many_in settled.new recent.new ≡ many_in settled.old recent.old + 1 }
    ensures capacity { deque_capacity settled.new ≡ deque_capacity settled.old }
    ensures recent { deque_capacity recent.old ≤ deque_capacity recent.new }
{
    make_way(settled, recent);
    let place = recent.partition_point(|e| e.time <= event.time);
    insert_reserved(recent, place, event);
}
