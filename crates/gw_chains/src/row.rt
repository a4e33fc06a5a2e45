//! Members in buckets that stand in one row: where few ranks occur.

ghost use Rattle.std.specs.Prelude.{◌≡◌, ◌≤◌, ◌<◌, ◌+◌, ◌-◌, ◌^◌, ℕ, AllPairs, Some, true, false, IfSome, length, option_to_list, OnOk, OnErr};
ghost use Rattle.std.specs.VecDeque.{deque_len, deque_capacity};
ghost use Rattle.slab.specs.Slab.{get, ContainsKey, HasRoomFor};
ghost use Rattle.gw_members.specs.Chain.{first};
ghost use Rattle.gw_chains.specs.Buckets.{total, bucket_of_one, without_first_link, below, IsHead, head_host, headed_by, with_head, Before, AreBuckets, LoseFirst, GainBehind, GainAhead};
ghost use Rattle.gw_chains.specs.Queues.{space_in, GrowsByOneAtMost, DoesNotGrow};
ghost use Rattle.gw_chains.specs.Slots.{TakesOneSlot, TakesNoSlot, KeepsSlots, row_room};
ghost use Rattle.gw_chains.specs.Spots.{count_at, link_at, IsSpot, led_past, without_one, without_link, count_before, HasMemberAt, LoseMemberAt};

use crate::bucket::{Bucket, Link, Ranked};
use crate::buckets::{bucket_of_one, link_behind, reserve_links, shorter};
use crate::chunks::{join_behind, replace_front};
use crate::queue::insert_reserved;
use crate::spot::{Spot, link_at, spot_of};
use gw_members::{MOST, Memory};
use slab::Slab;
use std::collections::VecDeque;

/// Makes room for so many more members beside those that there are.
pub(crate) fn reserve<T: Ranked>(
    row: &mut VecDeque<Bucket>,
    links: &mut Slab<Link<T>>,
    count: usize,
    more: usize,
) -> Result<(), Memory>
    requires { count ≤ 2 ^ 62 }
    ensures items { row.new.items ≡ row.old.items }
    ensures slots { links.new.slots ≡ links.old.slots }
    ensures room { OnOk result (more ≤ row_room count row.new links.new) }
    ensures kept { row_room count row.old links.old ≤ row_room count row.new links.new }
    ensures refused { OnErr result (row_room count row.old links.old < more) }
{
    if has_room(row, links, count, more) {
        return Ok(());
    }
    reserve_more(row, links, count, more)
}

/// Whether there is room for so many more members beside those that there are.
fn has_room<T: Ranked>(
    row: &VecDeque<Bucket>,
    links: &Slab<Link<T>>,
    count: usize,
    more: usize,
) -> bool
    requires { count ≤ 2 ^ 62 }
    ensures room { result ≡ true → more ≤ row_room count row.now links.now }
    ensures lacks { result ≡ false → row_room count row.now links.now < more }
{
    more <= links.capacity() - links.len()
        && more <= row.capacity() - row.len()
        && more <= MOST - count
}

/// The same as `reserve`, where memory may have to be taken.
#[inline(never)]
fn reserve_more<T: Ranked>(
    row: &mut VecDeque<Bucket>,
    links: &mut Slab<Link<T>>,
    count: usize,
    more: usize,
) -> Result<(), Memory>
    requires { count ≤ 2 ^ 62 }
    ensures items { row.new.items ≡ row.old.items }
    ensures slots { links.new.slots ≡ links.old.slots }
    ensures room { OnOk result (more ≤ row_room count row.new links.new) }
    ensures kept { row_room count row.old links.old ≤ row_room count row.new links.new }
    ensures refused { OnErr result (row_room count row.old links.old < more) }
{
    if MOST - count < more {
        return Err(Memory);
    }
    reserve_links(links, more)?;
    reserve_buckets(row, more)
}

/// Makes room for so many more buckets. Where that takes memory it first asks for room for as many again as there is room for,
/// since a queue gets no more than is asked for, and room is asked for as members come, one by one.
fn reserve_buckets(row: &mut VecDeque<Bucket>, more: usize) -> Result<(), Memory>
    ensures items { row.new.items ≡ row.old.items }
    ensures len { deque_len row.new ≡ deque_len row.old }
    ensures room { OnOk result (more ≤ space_in row.new) }
    ensures kept { deque_capacity row.old ≤ deque_capacity row.new }
    ensures refused { OnErr result (space_in row.old < more) }
{
    if more <= row.capacity() - row.len() {
        return Ok(());
    }
    if row.reserve(more.saturating_add(row.capacity())).is_ok() {
        return Ok(());
    }
    row.reserve(more)
}

/// Puts a member behind all of its rank or a lower one. There is room.
#[inline(always)]
pub(crate) fn insert_behind<T: Ranked>(
    row: &mut VecDeque<Bucket>,
    links: &mut Slab<Link<T>>,
    member: T,
)
    requires buckets { AreBuckets T.rank (get links.old) row.old.items }
    requires few { total row.old.items < 2 ^ 62 }
    requires room { deque_len row.old < deque_capacity row.old }
    requires links { HasRoomFor links.old 1 }
    ensures gain { GainBehind T.rank member links.old row.old.items links.new row.new.items }
    ensures room { GrowsByOneAtMost row.old row.new }
    ensures links { TakesOneSlot links.old links.new }
{
    let link = links.insert_reserved(Link { member, next: 0 });
    let host = join_behind(row, bucket_of_one(member, link));
    link_behind(links, host, link);
}

/// Whether a bucket has a lower rank than another.
fn is_below(one: Bucket, other: Bucket) -> bool
    ensures { result ≡ below one other }
{
    one.rank < other.rank
}

/// The place before all buckets of a newcomer's rank or a higher one.
fn place_ahead(row: &VecDeque<Bucket>, newcomer: Bucket) -> usize
    requires { AllPairs Before row.now.items }
    ensures within { result ≤ deque_len row.now }
    ensures place { IsHead newcomer row.now.items result }
{
    row.partition_point(|b| is_below(*b, newcomer))
}

/// The bucket of a newcomer's rank, if there is one, where this is the place before all of its rank or a higher one.
fn host_at(row: &VecDeque<Bucket>, place: usize, newcomer: Bucket) -> Option<Bucket>
    requires within { place ≤ deque_len row.now }
    requires place { IsHead newcomer row.now.items place }
    ensures { result ≡ head_host newcomer row.now.items }
{
    if place == row.len() {
        return None;
    }
    let bucket = row[place];
    if is_below(newcomer, bucket) {
        None
    } else {
        Some(bucket)
    }
}

/// A bucket that took another in before its own.
fn headed_by(newcomer: Bucket, bucket: Bucket) -> Bucket
    ensures { result ≡ headed_by newcomer bucket }
{
    Bucket {
        first: newcomer.first,
        count: bucket.count.saturating_add(1),
        ..bucket
    }
}

/// Puts a newcomer before its host, or at this place where it has none. There is room.
fn put_ahead(row: &mut VecDeque<Bucket>, place: usize, host: Option<Bucket>, newcomer: Bucket)
    requires within { place ≤ deque_len row.old }
    requires place { IsHead newcomer row.old.items place }
    requires host { host ≡ head_host newcomer row.old.items }
    requires room { deque_len row.old < deque_capacity row.old }
    ensures items { row.new.items ≡ with_head newcomer row.old.items }
    ensures room { GrowsByOneAtMost row.old row.new }
{
    match host {
        Some(bucket) => {
            row[place] = headed_by(newcomer, bucket);
        }
        None => insert_reserved(row, place, newcomer),
    }
}

/// The first link of a bucket, if there is one.
fn first_link(host: Option<Bucket>) -> usize
    ensures { IfSome host (λ b. result ≡ b.first) }
{
    match host {
        Some(bucket) => bucket.first,
        None => 0,
    }
}

/// Puts a member ahead of all of its rank or a higher one. There is room.
#[inline(never)]
pub(crate) fn insert_ahead<T: Ranked>(
    row: &mut VecDeque<Bucket>,
    links: &mut Slab<Link<T>>,
    member: T,
)
    requires buckets { AreBuckets T.rank (get links.old) row.old.items }
    requires few { total row.old.items < 2 ^ 62 }
    requires room { deque_len row.old < deque_capacity row.old }
    requires links { HasRoomFor links.old 1 }
    ensures gain { GainAhead T.rank member links.old row.old.items links.new row.new.items }
    ensures room { GrowsByOneAtMost row.old row.new }
    ensures links { TakesOneSlot links.old links.new }
{
    let sought = bucket_of_one(member, 0);
    let place = place_ahead(row, sought);
    let host = host_at(row, place, sought);
    let next = first_link(host);
    let link = links.insert_reserved(Link { member, next });
    put_ahead(row, place, host, bucket_of_one(member, link));
}

/// The first bucket, if there is one.
fn front(row: &VecDeque<Bucket>) -> Option<Bucket>
    ensures { result ≡ first row.now.items }
{
    match row.front() {
        Some(bucket) => Some(*bucket),
        None => None,
    }
}

/// The first bucket, which is this one, loses its first link, behind which `next` is.
fn shorten(row: &mut VecDeque<Bucket>, bucket: Bucket, next: usize)
    requires { Some bucket ≡ first row.old.items }
    ensures items { row.new.items ≡ without_first_link next row.old.items }
    ensures room { DoesNotGrow row.old row.new }
{
    if 1 < bucket.count {
        replace_front(row, shorter(bucket, next));
    } else {
        let _ = row.pop_front();
    }
}

/// Takes the first member, if there is one.
pub(crate) fn pop_member<T: Ranked>(
    row: &mut VecDeque<Bucket>,
    links: &mut Slab<Link<T>>,
) -> Option<T>
    requires { AreBuckets T.rank (get links.old) row.old.items }
    ensures first { LoseFirst T.rank result
        (get links.old) row.old.items (get links.new) row.new.items }
    ensures total { total row.new.items + length (option_to_list result) ≡ total row.old.items }
    ensures room { DoesNotGrow row.old row.new }
    ensures links { TakesNoSlot links.old links.new }
{
    let bucket = front(row)?;
    let link = links.remove(bucket.first);
    shorten(row, bucket, link.next);
    Some(link.member)
}

/// The link before a spot, if there is one, leads to another.
fn lead_past<T: Ranked>(links: &mut Slab<Link<T>>, spot: Spot, next: usize)
    requires { 0 < spot.passed → ContainsKey links.old spot.before }
    ensures links { (k : ℕ) → get links.new k ≡ led_past (get links.old) spot next k }
    ensures room { KeepsSlots links.old links.new }
{
    if 0 < spot.passed {
        links[spot.before].next = next;
    }
}

/// A bucket without the member at a spot, behind which the link `next` is.
fn without_one(bucket: Bucket, spot: Spot, next: usize) -> Bucket
    requires { spot.passed < bucket.count }
    ensures { result ≡ without_one spot next bucket }
{
    Bucket {
        first: if spot.passed == 0 { next } else { bucket.first },
        last: if spot.passed + 1 == bucket.count {
            spot.before
        } else {
            bucket.last
        },
        count: bucket.count - 1,
        ..bucket
    }
}

/// The bucket of a spot loses the link there, behind which `next` is. It goes where it has no other.
fn shorten_at(row: &mut VecDeque<Bucket>, spot: Spot, next: usize)
    requires { spot.passed < count_at row.old.items spot.bucket }
    ensures items { row.new.items ≡ without_link spot next row.old.items spot.bucket }
    ensures room { DoesNotGrow row.old row.new }
{
    let bucket = row[spot.bucket];
    if 1 < bucket.count {
        row[spot.bucket] = without_one(bucket, spot, next);
    } else {
        let _ = row.remove(spot.bucket);
    }
}

/// Takes out the member at a spot, whose link is `here`. There is one. The spot is then at the next, or at the end of its bucket.
pub(crate) fn unlink<T: Ranked>(
    row: &mut VecDeque<Bucket>,
    links: &mut Slab<Link<T>>,
    spot: Spot,
    here: usize,
) -> T
    requires buckets { AreBuckets T.rank (get links.old) row.old.items }
    requires spot { IsSpot (get links.old) row.old.items spot }
    requires there { spot.passed < count_at row.old.items spot.bucket }
    requires here { here ≡ link_at (get links.old) row.old.items spot.bucket spot.passed }
    ensures value { HasMemberAt (count_before row.old.items spot) result links.old row.old }
    ensures members { LoseMemberAt (count_before row.old.items spot) links.old row.old links.new row.new }
    ensures buckets { AreBuckets T.rank (get links.new) row.new.items }
    ensures total { total row.new.items + 1 ≡ total row.old.items }
    ensures spot { IsSpot (get links.new) row.new.items spot }
    ensures place { count_before row.new.items spot ≡ count_before row.old.items spot }
    ensures room { DoesNotGrow row.old row.new }
    ensures links { TakesNoSlot links.old links.new }
{
    let link = links.remove(here);
    lead_past(links, spot, link.next);
    shorten_at(row, spot, link.next);
    link.member
}

/// Takes out the member at this place of all, from 0. There is one.
pub(crate) fn remove_member<T: Ranked>(
    row: &mut VecDeque<Bucket>,
    links: &mut Slab<Link<T>>,
    place: usize,
)
    requires buckets { AreBuckets T.rank (get links.old) row.old.items }
    requires there { place < total row.old.items }
    ensures members { LoseMemberAt place links.old row.old links.new row.new }
    ensures buckets { AreBuckets T.rank (get links.new) row.new.items }
    ensures total { total row.new.items + 1 ≡ total row.old.items }
    ensures room { DoesNotGrow row.old row.new }
    ensures links { TakesNoSlot links.old links.new }
{
    if place == 0 {
        let _ = pop_member(row, links);
    } else {
        let spot = spot_of(row, links, place);
        let here = link_at(row, links, spot);
        let _ = unlink(row, links, spot, here);
    }
}
