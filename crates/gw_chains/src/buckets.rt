//! Members in buckets: all of one rank stand in one bucket, each linked to the next. The buckets lie in chunks, and the
//! links in a slab.

ghost use Rattle.std.specs.Prelude.{◌≡◌, ◌≤◌, ◌<◌, ◌+◌, ◌-◌, ◌^◌, ℕ, [], All, Some, IfSome, IfNone, option_map, length, true, false, OnOk, OnErr};
ghost use Rattle.std.specs.VecDeque.{deque_len, deque_capacity};
ghost use Rattle.std.specs.VecDeque.Iter.{deque_iter_rest};
ghost use Rattle.slab.specs.Slab.{get, slab_len, ContainsKey, HasRoomFor};
ghost use Rattle.gw_members.specs.Chain.{first};
ghost use Rattle.gw_chains.specs.Chunks.{all_of, rest_of, IsChunk, IsSpare, left_in, YieldsNext};
ghost use Rattle.gw_chains.specs.Queues.{space_in};
ghost use Rattle.gw_chains.specs.Slots.{TakesOneSlot, TakesNoSlot, KeepsSlots};
ghost use Rattle.gw_chains.specs.Buckets.{total, bucket_of_one, linked_behind, without_first_link, AreBuckets, GainInChunks, LoseFirstInChunks, YieldsMember};

use crate::bucket::{Bucket, Link, Ranked};
use crate::chunks::{Position, front, insert, pop_first, set_front};
use crate::guesses::Guesses;
use gw_members::Memory;
use slab::Slab;
use std::collections::{VecDeque, vec_deque};

/// Links another behind the last of a bucket, if there is one.
pub(crate) fn link_behind<T: Ranked>(links: &mut Slab<Link<T>>, host: Option<Bucket>, next: usize)
    requires { IfSome host (λ b. ContainsKey links.old b.last) }
    ensures links { (k : ℕ) → get links.new k ≡ linked_behind host next (get links.old) k }
    ensures room { KeepsSlots links.old links.new }
{
    if let Some(bucket) = host {
        links[bucket.last].next = next;
    }
}

/// The bucket of a member alone, whose link is this one.
pub(crate) fn bucket_of_one<T: Ranked>(member: T, link: usize) -> Bucket
    ensures { result ≡ bucket_of_one T.rank member link }
{
    Bucket {
        rank: member.rank(),
        first: link,
        last: link,
        count: 1,
    }
}

/// Puts a member behind all of its rank or a lower one. There is room. It looks for the bucket of its rank at the position `at`
/// first, which may be any, and tells there where that is.
pub(crate) fn insert_member<T: Ranked>(
    chunks: &mut VecDeque<VecDeque<Bucket>>,
    spare: &mut Vec<VecDeque<Bucket>>,
    links: &mut Slab<Link<T>>,
    member: T,
    guesses: &Guesses,
    at: &mut Position,
)
    requires buckets { AreBuckets T.rank (get links.old) (all_of chunks.old.items) }
    requires few { total (all_of chunks.old.items) < 2 ^ 62 }
    requires chunks { All IsChunk chunks.old.items }
    requires room { deque_len chunks.old < deque_capacity chunks.old }
    requires spare { (0 < length spare.old.items) × All IsSpare spare.old.items }
    requires links { HasRoomFor links.old 1 }
    ensures gain { GainInChunks T.rank member links.old chunks.old links.new chunks.new }
    ensures chunks { All IsChunk chunks.new.items }
    ensures spare { All IsSpare spare.new.items }
    ensures room { space_in chunks.old ≤ space_in chunks.new + 1 }
    ensures left { length spare.old.items ≤ length spare.new.items + 1 }
    ensures links { TakesOneSlot links.old links.new }
{
    let link = links.insert_reserved(Link { member, next: 0 });
    let host = insert(chunks, spare, bucket_of_one(member, link), guesses, at);
    link_behind(links, host, link);
}

/// Makes room for the links of so many more members.
pub(crate) fn reserve_links<T: Ranked>(links: &mut Slab<Link<T>>, more: usize) -> Result<(), Memory>
    ensures slots { links.new.slots ≡ links.old.slots }
    ensures room { OnOk result (more ≤ links.new.capacity - slab_len links.new) }
    ensures kept { links.old.capacity ≤ links.new.capacity }
    ensures refused { OnErr result (links.old.capacity - slab_len links.old < more) }
{
    if more == 0 {
        return Ok(());
    }
    links.reserve(more)
}

/// The first bucket, if there is one.
pub(crate) fn first_bucket(chunks: &VecDeque<VecDeque<Bucket>>) -> Option<Bucket>
    requires { All IsChunk chunks.now.items }
    ensures { result ≡ first (all_of chunks.now.items) }
{
    let bucket = front(chunks)?;
    Some(*bucket)
}

/// The rank of the first member, if there is one.
pub(crate) fn first_rank(chunks: &VecDeque<VecDeque<Bucket>>) -> Option<i64>
    requires { All IsChunk chunks.now.items }
    ensures { result ≡ option_map (λ b. b.rank) (first (all_of chunks.now.items)) }
{
    let bucket = front(chunks)?;
    Some(bucket.rank)
}

/// A bucket without its first link, behind which `next` is. It has another.
pub(crate) fn shorter(bucket: Bucket, next: usize) -> Bucket
    requires { 1 < bucket.count }
    ensures { result ≡ record bucket { first = next; count = bucket.count - 1 } }
{
    Bucket {
        first: next,
        count: bucket.count - 1,
        ..bucket
    }
}

/// The first bucket, which is this one, loses its first link, behind which `next` is.
fn shorten(
    chunks: &mut VecDeque<VecDeque<Bucket>>,
    spare: &mut Vec<VecDeque<Bucket>>,
    bucket: Bucket,
    next: usize,
)
    requires first { Some bucket ≡ first (all_of chunks.old.items) }
    requires chunks { All IsChunk chunks.old.items }
    requires spare { All IsSpare spare.old.items }
    ensures items { all_of chunks.new.items ≡ without_first_link next (all_of chunks.old.items) }
    ensures chunks { All IsChunk chunks.new.items }
    ensures spare { All IsSpare spare.new.items }
    ensures room { space_in chunks.old ≤ space_in chunks.new }
    ensures kept { length spare.old.items ≤ length spare.new.items }
{
    if 1 < bucket.count {
        set_front(chunks, shorter(bucket, next));
    } else {
        let _ = pop_first(chunks, spare);
    }
}

/// Takes the first member, which is in the first bucket, this one.
pub(crate) fn pop_from<T: Ranked>(
    chunks: &mut VecDeque<VecDeque<Bucket>>,
    spare: &mut Vec<VecDeque<Bucket>>,
    links: &mut Slab<Link<T>>,
    bucket: Bucket,
) -> T
    requires bucket { Some bucket ≡ first (all_of chunks.old.items) }
    requires buckets { AreBuckets T.rank (get links.old) (all_of chunks.old.items) }
    requires chunks { All IsChunk chunks.old.items }
    requires spare { All IsSpare spare.old.items }
    ensures first { LoseFirstInChunks T.rank result links.old chunks.old links.new chunks.new }
    ensures total { total (all_of chunks.new.items) + 1 ≡ total (all_of chunks.old.items) }
    ensures chunks { All IsChunk chunks.new.items }
    ensures spare { All IsSpare spare.new.items }
    ensures room { space_in chunks.old ≤ space_in chunks.new }
    ensures kept { length spare.old.items ≤ length spare.new.items }
    ensures links { TakesNoSlot links.old links.new }
{
    let link = links.remove(bucket.first);
    shorten(chunks, spare, bucket, link.next);
    link.member
}

/// The next of so many members, each linked to the next, if one is left.
pub(crate) fn next_member<'a, T: Ranked>(
    links: &'a Slab<Link<T>>,
    left: &mut usize,
    at: &mut usize,
) -> Option<&'a T>
    ensures members { YieldsMember (get links.now) result left.old at.old left.new at.new }
    ensures end { IfNone result (left.new ≡ 0) }
{
    if *left == 0 {
        return None;
    }
    match links.get(*at) {
        Some(link) => {
            *left -= 1;
            *at = link.next;
            Some(&link.member)
        }
        None => {
            *left = 0;
            None
        }
    }
}

/// The next bucket of a chunk that was begun, if there is one.
fn next_of<'a>(chunk: &mut Option<vec_deque::Iter<'a, Bucket>>) -> Option<&'a Bucket>
    ensures items { YieldsNext result (rest_of chunk.old) (rest_of chunk.new) }
    ensures end { IfNone result (rest_of chunk.old ≡ []) }
{
    chunk.as_mut()?.next()
}

/// Begins the next chunk, if there is one.
fn begin_next<'a>(
    chunk: &mut Option<vec_deque::Iter<'a, Bucket>>,
    chunks: &mut vec_deque::Iter<'a, VecDeque<Bucket>>,
) -> bool
    ensures begun { result ≡ true → all_of (deque_iter_rest chunks.old) ≡ left_in chunk.new chunks.new }
    ensures fewer { result ≡ true
        → length (deque_iter_rest chunks.old) ≡ length (deque_iter_rest chunks.new) + 1 }
    ensures end { result ≡ false → all_of (deque_iter_rest chunks.old) ≡ [] }
    ensures same { result ≡ false → rest_of chunk.new ≡ rest_of chunk.old }
    ensures none { result ≡ false → deque_iter_rest chunks.new ≡ [] }
{
    match chunks.next() {
        Some(next) => {
            *chunk = Some(next.iter());
            true
        }
        None => false,
    }
}

/// The next bucket, in the chunk that was begun or in the next, if there is one.
pub(crate) fn next_bucket<'a>(
    chunk: &mut Option<vec_deque::Iter<'a, Bucket>>,
    chunks: &mut vec_deque::Iter<'a, VecDeque<Bucket>>,
) -> Option<&'a Bucket>
    ensures items { YieldsNext result (left_in chunk.old chunks.old) (left_in chunk.new chunks.new) }
    ensures end { IfNone result (left_in chunk.old chunks.old ≡ []) }
{
    loop {
        if let Some(bucket) = next_of(chunk) {
            return Some(bucket);
        }
        if !begin_next(chunk, chunks) {
            return None;
        }
    }
}
