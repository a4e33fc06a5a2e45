//! A list that is kept in an order, in chunks, so that a newcomer among tens of thousands moves few of them.

ghost use Rattle.std.specs.Prelude.{◌≡◌, ◌≤◌, ◌<◌, ◌+◌, ◌-◌, ◌^◌, [], ◌∷◌, ◌++◌, Bool, true, All, length, drop, set, option_to_list, option_copied, IfSome, OnSome, OnOk, OnErr};
ghost use Rattle.std.specs.VecDeque.{deque_len, deque_capacity};
ghost use Rattle.gw_members.specs.Chain.{first, rest};
ghost use Rattle.gw_chains.specs.Newcomers.{host, with_newcomer, IsHostLast, GoFirst, IsPlaceOf, BeginsBehind, BeginsBefore, NextBeginsBehind, ChunkTakesIn, TakesInAt, ChunksTakeIn};
ghost use Rattle.gw_chains.specs.Chunks.{most_in_chunk, all_of, begins_in, HoldsInChunk, StandsAt, IsChunk, IsSpare, IsLastOf, ChangesChunk, LacksChunks};
ghost use Rattle.gw_chains.specs.Queues.{space_in, IsAsLarge, GainsOneAtMost};

use crate::guesses::Guesses;
use crate::queue::insert_reserved;
use gw_members::Memory;
use std::alloc::Global;
use std::collections::VecDeque;

/// A chunk that comes to have so many elements is full, and is split.
pub(crate) const MOST_IN_CHUNK: usize = 128;

/// Where an element stands: in which chunk, and at which place of it, both from 0.
#[derive(Clone, Copy)]
pub(crate) struct Position {
    pub(crate) chunk: usize,
    pub(crate) place: usize,
}

/// What is kept in an order.
pub(crate) trait Placed: Copy + Drop {
    ghost goes_first: { Self → Self → Bool };

    ghost with_guest: { Self → Self → Self };

    /// Whether it goes ahead of another. Two that do so of each other are alike.
    fn goes_first(self, other: Self) -> bool
        ensures { result ≡ goes_first self other };

    /// It with a newcomer, its like, which it takes in.
    fn take_in(self, newcomer: Self) -> Self
        ensures { result ≡ with_guest self newcomer };

    /// By what guesses are kept.
    fn key(self) -> i64;
}

/// Whether the first of a chunk goes ahead of a newcomer.
fn begins_before<T: Placed>(chunk: &VecDeque<T>, newcomer: T) -> bool
    ensures { result ≡ begins_in (λ y. T.goes_first y newcomer) chunk.now.items }
{
    match chunk.front() {
        Some(first) => first.goes_first(newcomer),
        None => false,
    }
}

/// The place of the chunk in which a newcomer belongs: the last that begins before it, else the first. It looks at the last
/// chunk first, and then at the first, since most go there.
fn place_of<T: Placed>(chunks: &VecDeque<VecDeque<T>>, newcomer: T) -> usize
    requires { 0 < deque_len chunks.now }
    ensures within { result < deque_len chunks.now }
    ensures behind { BeginsBefore T.goes_first newcomer chunks.now result }
    ensures before { NextBeginsBehind T.goes_first newcomer chunks.now result }
{
    let mut high = chunks.len() - 1;
    if begins_before(&chunks[high], newcomer) {
        return high;
    }
    if high < 2 || !begins_before(&chunks[1], newcomer) {
        return 0;
    }
    let mut low = 1usize;
    high -= 1;
    while low < high {
        let middle = high - (high - low) / 2;
        if begins_before(&chunks[middle], newcomer) {
            low = middle;
        } else {
            high = middle - 1;
        }
    }
    low
}

/// The place behind all that go ahead of a newcomer, in what lies in two slices, one behind the other.
fn place_on<T: Placed>(front: &[T], back: &[T], newcomer: T) -> usize
    requires order { GoFirst T.goes_first newcomer (front.now ++ back.now) }
    requires few { length front.now + length back.now < 2 ^ 64 }
    ensures within { result ≤ length front.now + length back.now }
    ensures place { IsPlaceOf T.goes_first newcomer (front.now ++ back.now) result }
{
    let place = front.partition_point(|y| y.goes_first(newcomer));
    if place < front.len() {
        return place;
    }
    place + back.partition_point(|y| y.goes_first(newcomer))
}

/// The place in a chunk behind all that go ahead of a newcomer; it looks at the last first.
fn place_in<T: Placed>(chunk: &VecDeque<T>, newcomer: T) -> usize
    requires { GoFirst T.goes_first newcomer chunk.now.items }
    ensures within { result ≤ deque_len chunk.now }
    ensures place { IsPlaceOf T.goes_first newcomer chunk.now.items result }
{
    if let Some(last) = chunk.back() {
        if last.goes_first(newcomer) {
            return chunk.len();
        }
    }
    let (front, back) = chunk.as_slices();
    place_on(front, back, newcomer)
}

/// The like of a newcomer in a chunk, if one is there, where the newcomer's place is this one.
fn host_before<T: Placed>(chunk: &VecDeque<T>, place: usize, newcomer: T) -> Option<T>
    requires within { place ≤ deque_len chunk.now }
    requires place { IsPlaceOf T.goes_first newcomer chunk.now.items place }
    requires last { IsHostLast T.goes_first newcomer chunk.now.items }
    ensures host { result ≡ host T.goes_first newcomer chunk.now.items }
    ensures before { OnSome result (0 < place) }
{
    if place == 0 {
        return None;
    }
    let before = chunk[place - 1];
    if newcomer.goes_first(before) {
        Some(before)
    } else {
        None
    }
}

/// Puts a newcomer at its place in a chunk, where there is room. If its like is there, that takes it in, and is answered as
/// it was. The place is told in `at`.
#[inline(always)]
pub(crate) fn join<T: Placed>(chunk: &mut VecDeque<T>, newcomer: T, at: &mut usize) -> Option<T>
    requires order { GoFirst T.goes_first newcomer chunk.old.items }
    requires last { IsHostLast T.goes_first newcomer chunk.old.items }
    requires room { deque_len chunk.old < deque_capacity chunk.old }
    ensures host { result ≡ host T.goes_first newcomer chunk.old.items }
    ensures items { chunk.new.items
        ≡ with_newcomer T.goes_first T.with_guest newcomer chunk.old.items }
    ensures len { GainsOneAtMost chunk.old chunk.new }
    ensures capacity { deque_capacity chunk.old ≤ deque_capacity chunk.new }
{
    let place = place_in(chunk, newcomer);
    match host_before(chunk, place, newcomer) {
        Some(host) => {
            chunk[place - 1] = host.take_in(newcomer);
            *at = place - 1;
            Some(host)
        }
        None => {
            insert_reserved(chunk, place, newcomer);
            *at = place;
            None
        }
    }
}

/// The last of a chunk, if it is the like of a newcomer.
fn like_at_end<T: Placed>(chunk: &VecDeque<T>, newcomer: T) -> Option<T>
    ensures like { IfSome result (λ y. (T.goes_first y newcomer ≡ true)
        × (T.goes_first newcomer y ≡ true)) }
    ensures last { IfSome result (λ y. IsLastOf y chunk.now) }
{
    let last = *chunk.back()?;
    if last.goes_first(newcomer) && newcomer.goes_first(last) {
        Some(last)
    } else {
        None
    }
}

/// Puts another in the place of the last of a chunk.
fn replace_back<T: Placed>(chunk: &mut VecDeque<T>, other: T)
    requires { 0 < deque_len chunk.old }
    ensures items { chunk.new.items ≡ set chunk.old.items (deque_len chunk.old - 1) other }
    ensures len { deque_len chunk.new ≡ deque_len chunk.old }
    ensures capacity { deque_capacity chunk.new ≡ deque_capacity chunk.old }
{
    let last = chunk.len() - 1;
    chunk[last] = other;
}

/// The same as `join`, where often nobody is there, or the last is the like of a newcomer: it looks at those first.
#[inline(always)]
pub(crate) fn join_behind<T: Placed>(chunk: &mut VecDeque<T>, newcomer: T) -> Option<T>
    requires order { GoFirst T.goes_first newcomer chunk.old.items }
    requires last { IsHostLast T.goes_first newcomer chunk.old.items }
    requires room { deque_len chunk.old < deque_capacity chunk.old }
    ensures host { result ≡ host T.goes_first newcomer chunk.old.items }
    ensures items { chunk.new.items
        ≡ with_newcomer T.goes_first T.with_guest newcomer chunk.old.items }
    ensures len { GainsOneAtMost chunk.old chunk.new }
    ensures capacity { deque_capacity chunk.old ≤ deque_capacity chunk.new }
{
    if chunk.is_empty() {
        chunk.push_back_reserved(newcomer);
        return None;
    }
    if let Some(host) = like_at_end(chunk, newcomer) {
        replace_back(chunk, host.take_in(newcomer));
        return Some(host);
    }
    join_elsewhere(chunk, newcomer)
}

/// The same as `join`, as a function of its own.
#[inline(never)]
fn join_elsewhere<T: Placed>(chunk: &mut VecDeque<T>, newcomer: T) -> Option<T>
    requires order { GoFirst T.goes_first newcomer chunk.old.items }
    requires last { IsHostLast T.goes_first newcomer chunk.old.items }
    requires room { deque_len chunk.old < deque_capacity chunk.old }
    ensures host { result ≡ host T.goes_first newcomer chunk.old.items }
    ensures items { chunk.new.items
        ≡ with_newcomer T.goes_first T.with_guest newcomer chunk.old.items }
    ensures len { GainsOneAtMost chunk.old chunk.new }
    ensures capacity { deque_capacity chunk.old ≤ deque_capacity chunk.new }
{
    let mut at = 0;
    join(chunk, newcomer, &mut at)
}

/// Moves the upper half of a full chunk to a spare one.
fn split<T: Placed>(lower: &mut VecDeque<T>, upper: &mut VecDeque<T>)
    requires full { deque_len lower.old ≡ most_in_chunk }
    requires spare { IsSpare upper.old }
    ensures items { lower.new.items ++ upper.new.items ≡ lower.old.items }
    ensures lower { 0 < deque_len lower.new }
    ensures less { deque_len lower.new < most_in_chunk }
    ensures capacity { deque_capacity lower.new ≡ deque_capacity lower.old }
    ensures upper { IsChunk upper.new }
{
    while upper.len() < MOST_IN_CHUNK / 2 {
        match lower.pop_back() {
            Some(x) => upper.push_front_reserved(x),
            None => return,
        }
    }
}

/// Puts a newcomer at its place in a chunk, and answers its like as it was, if one is there. Where the chunk is full then, its
/// upper half comes back, in what was a spare chunk.
fn join_and_split<T: Placed>(
    chunk: &mut VecDeque<T>,
    spare: &mut Vec<VecDeque<T>>,
    newcomer: T,
    at: &mut usize,
) -> (Option<T>, Option<VecDeque<T>>)
    requires order { GoFirst T.goes_first newcomer chunk.old.items }
    requires last { IsHostLast T.goes_first newcomer chunk.old.items }
    requires chunk { IsChunk chunk.old }
    requires spare { (0 < length spare.old.items) × All IsSpare spare.old.items }
    ensures host { result.0 ≡ host T.goes_first newcomer chunk.old.items }
    ensures items { ChunkTakesIn T.goes_first T.with_guest newcomer chunk.old chunk.new result.1 }
    ensures chunk { IsChunk chunk.new }
    ensures upper { IfSome result.1 IsChunk }
    ensures spare { All IsSpare spare.new.items }
    ensures left { length spare.old.items
        ≤ length spare.new.items + length (option_to_list result.1) }
{
    let host = join(chunk, newcomer, at);
    if chunk.len() < MOST_IN_CHUNK {
        return (host, None);
    }
    match spare.pop() {
        Some(mut upper) => {
            split(chunk, &mut upper);
            (host, Some(upper))
        }
        None => unreachable!(),
    }
}

/// Puts a newcomer at its place in the chunk of this place, and answers its like as it was, if one is there.
fn insert_at<T: Placed>(
    chunks: &mut VecDeque<VecDeque<T>>,
    spare: &mut Vec<VecDeque<T>>,
    place: usize,
    newcomer: T,
    at: &mut usize,
) -> Option<T>
    requires within { place < deque_len chunks.old }
    requires order { HoldsInChunk (GoFirst T.goes_first newcomer) chunks.old.items place }
    requires last { HoldsInChunk (IsHostLast T.goes_first newcomer) chunks.old.items place }
    requires chunks { All IsChunk chunks.old.items }
    requires room { deque_len chunks.old < deque_capacity chunks.old }
    requires spare { (0 < length spare.old.items) × All IsSpare spare.old.items }
    ensures host { HoldsInChunk (λ ys. result ≡ host T.goes_first newcomer ys)
        chunks.old.items place }
    ensures items { TakesInAt T.goes_first T.with_guest newcomer place chunks.old chunks.new }
    ensures chunks { All IsChunk chunks.new.items }
    ensures spare { All IsSpare spare.new.items }
    ensures room { space_in chunks.old ≤ space_in chunks.new + 1 }
    ensures left { length spare.old.items ≤ length spare.new.items + 1 }
{
    let (host, upper) = join_and_split(&mut chunks[place], spare, newcomer, at);
    match upper {
        Some(upper) => {
            insert_reserved(chunks, place + 1, upper);
            host
        }
        None => host,
    }
}

/// The like of a newcomer, if it stands at this position.
fn like_at<T: Placed>(chunks: &VecDeque<VecDeque<T>>, at: Position, newcomer: T) -> Option<T>
    ensures like { IfSome result (λ y. (T.goes_first y newcomer ≡ true)
        × (T.goes_first newcomer y ≡ true)) }
    ensures there { IfSome result (λ y. StandsAt y at.chunk at.place chunks.now.items) }
{
    let there = *chunks.get(at.chunk)?.get(at.place)?;
    if there.goes_first(newcomer) && newcomer.goes_first(there) {
        Some(there)
    } else {
        None
    }
}

/// Puts another in a place of a chunk, in which one stands.
fn replace<T: Placed>(chunk: &mut VecDeque<T>, place: usize, other: T)
    requires { place < deque_len chunk.old }
    ensures items { chunk.new.items ≡ set chunk.old.items place other }
    ensures len { deque_len chunk.new ≡ deque_len chunk.old }
    ensures capacity { deque_capacity chunk.new ≡ deque_capacity chunk.old }
{
    chunk[place] = other;
}

/// Puts another in a position, in which one stands.
fn replace_at<T: Placed>(chunks: &mut VecDeque<VecDeque<T>>, at: Position, other: T)
    requires within { at.chunk < deque_len chunks.old }
    requires there { HoldsInChunk (λ ys. at.place < length ys) chunks.old.items at.chunk }
    requires chunks { All IsChunk chunks.old.items }
    ensures items { ChangesChunk at.chunk (λ ys. set ys at.place other) chunks.old chunks.new }
    ensures chunks { All IsChunk chunks.new.items }
    ensures room { IsAsLarge chunks.old chunks.new }
{
    replace(&mut chunks[at.chunk], at.place, other);
}

/// Whether a newcomer goes ahead of all, and the first chunk isn't full with it.
fn goes_ahead<T: Placed>(chunks: &VecDeque<VecDeque<T>>, newcomer: T) -> bool
    requires { 0 < deque_len chunks.now }
    ensures ahead { result ≡ true → BeginsBehind T.goes_first newcomer chunks.now.items 0 }
    ensures room { result ≡ true
        → HoldsInChunk (λ ys. length ys + 1 < most_in_chunk) chunks.now.items 0 }
{
    let chunk = &chunks[0];
    chunk.len() + 1 < MOST_IN_CHUNK && !begins_before(chunk, newcomer)
}

/// Puts a newcomer before all of a chunk, which isn't full with it.
fn put_first<T: Placed>(chunk: &mut VecDeque<T>, newcomer: T)
    requires chunk { IsChunk chunk.old }
    requires room { deque_len chunk.old + 1 < most_in_chunk }
    ensures items { chunk.new.items ≡ newcomer ∷ chunk.old.items }
    ensures chunk { IsChunk chunk.new }
{
    chunk.push_front_reserved(newcomer);
}

/// Puts a newcomer before all, where the first chunk isn't full with it.
fn put_ahead<T: Placed>(chunks: &mut VecDeque<VecDeque<T>>, newcomer: T)
    requires some { 0 < deque_len chunks.old }
    requires chunks { All IsChunk chunks.old.items }
    requires room { HoldsInChunk (λ ys. length ys + 1 < most_in_chunk) chunks.old.items 0 }
    ensures items { all_of chunks.new.items ≡ newcomer ∷ all_of chunks.old.items }
    ensures chunks { All IsChunk chunks.new.items }
    ensures room { IsAsLarge chunks.old chunks.new }
{
    put_first(&mut chunks[0], newcomer);
}

/// The same as `place_of`; it looks whether it is this place first, which may be any.
fn place_near<T: Placed>(chunks: &VecDeque<VecDeque<T>>, near: usize, newcomer: T) -> usize
    requires { 0 < deque_len chunks.now }
    ensures within { result < deque_len chunks.now }
    ensures behind { BeginsBefore T.goes_first newcomer chunks.now result }
    ensures before { NextBeginsBehind T.goes_first newcomer chunks.now result }
{
    if near < chunks.len()
        && begins_before(&chunks[near], newcomer)
        && (near + 1 == chunks.len() || !begins_before(&chunks[near + 1], newcomer))
    {
        return near;
    }
    place_of(chunks, newcomer)
}

/// Puts a newcomer at its place. If its like is there, that takes it in, and is answered as it was. It looks for that at the
/// position `at` first, which may be any, and tells there where it found it, or put the newcomer. What `guesses` says of chunks
/// may be wrong.
pub(crate) fn insert<T: Placed>(
    chunks: &mut VecDeque<VecDeque<T>>,
    spare: &mut Vec<VecDeque<T>>,
    newcomer: T,
    guesses: &Guesses,
    at: &mut Position,
) -> Option<T>
    requires order { GoFirst T.goes_first newcomer (all_of chunks.old.items) }
    requires last { IsHostLast T.goes_first newcomer (all_of chunks.old.items) }
    requires chunks { All IsChunk chunks.old.items }
    requires room { deque_len chunks.old < deque_capacity chunks.old }
    requires spare { (0 < length spare.old.items) × All IsSpare spare.old.items }
    ensures host { result ≡ host T.goes_first newcomer (all_of chunks.old.items) }
    ensures items { ChunksTakeIn T.goes_first T.with_guest newcomer chunks.old chunks.new }
    ensures chunks { All IsChunk chunks.new.items }
    ensures spare { All IsSpare spare.new.items }
    ensures room { space_in chunks.old ≤ space_in chunks.new + 1 }
    ensures left { length spare.old.items ≤ length spare.new.items + 1 }
{
    if let Some(host) = like_at(chunks, *at, newcomer) {
        replace_at(chunks, *at, host.take_in(newcomer));
        return Some(host);
    }
    insert_anew(chunks, spare, newcomer, guesses, at)
}

/// The same, where its like isn't looked for at any position first.
fn insert_anew<T: Placed>(
    chunks: &mut VecDeque<VecDeque<T>>,
    spare: &mut Vec<VecDeque<T>>,
    newcomer: T,
    guesses: &Guesses,
    at: &mut Position,
) -> Option<T>
    requires order { GoFirst T.goes_first newcomer (all_of chunks.old.items) }
    requires last { IsHostLast T.goes_first newcomer (all_of chunks.old.items) }
    requires chunks { All IsChunk chunks.old.items }
    requires room { deque_len chunks.old < deque_capacity chunks.old }
    requires spare { (0 < length spare.old.items) × All IsSpare spare.old.items }
    ensures host { result ≡ host T.goes_first newcomer (all_of chunks.old.items) }
    ensures items { ChunksTakeIn T.goes_first T.with_guest newcomer chunks.old chunks.new }
    ensures chunks { All IsChunk chunks.new.items }
    ensures spare { All IsSpare spare.new.items }
    ensures room { space_in chunks.old ≤ space_in chunks.new + 1 }
    ensures left { length spare.old.items ≤ length spare.new.items + 1 }
{
    if chunks.is_empty() {
        begin(chunks, spare, newcomer);
        *at = Position { chunk: 0, place: 0 };
        return None;
    }
    if goes_ahead(chunks, newcomer) {
        put_ahead(chunks, newcomer);
        *at = Position { chunk: 0, place: 0 };
        return None;
    }
    let place = place_near(chunks, guesses.chunk_of(newcomer.key()), newcomer);
    let mut inside = 0;
    let host = insert_at(chunks, spare, place, newcomer, &mut inside);
    *at = Position {
        chunk: place,
        place: inside,
    };
    host
}

/// Puts the first in a chunk of its own, where there is none.
fn begin<T: Placed>(chunks: &mut VecDeque<VecDeque<T>>, spare: &mut Vec<VecDeque<T>>, newcomer: T)
    requires empty { chunks.old.items ≡ [] }
    requires room { deque_len chunks.old < deque_capacity chunks.old }
    requires spare { (0 < length spare.old.items) × All IsSpare spare.old.items }
    ensures items { all_of chunks.new.items ≡ newcomer ∷ [] }
    ensures chunks { All IsChunk chunks.new.items }
    ensures spare { All IsSpare spare.new.items }
    ensures room { space_in chunks.old ≤ space_in chunks.new + 1 }
    ensures left { length spare.old.items ≤ length spare.new.items + 1 }
{
    match spare.pop() {
        Some(mut chunk) => {
            chunk.push_back_reserved(newcomer);
            chunks.push_back_reserved(chunk);
        }
        None => unreachable!(),
    }
}

/// Keeps an emptied chunk as a spare one, where there is room for it.
fn keep<T: Placed>(spare: &mut Vec<VecDeque<T>>, chunk: VecDeque<T>)
    requires chunk { IsSpare chunk }
    requires spare { All IsSpare spare.old.items }
    ensures spare { All IsSpare spare.new.items }
    ensures kept { length spare.old.items ≤ length spare.new.items }
{
    if spare.len() < spare.capacity() {
        spare.push_reserved(chunk);
    }
}

/// Takes the first, if there is one.
pub(crate) fn pop_first<T: Placed>(
    chunks: &mut VecDeque<VecDeque<T>>,
    spare: &mut Vec<VecDeque<T>>,
) -> Option<T>
    requires chunks { All IsChunk chunks.old.items }
    requires spare { All IsSpare spare.old.items }
    ensures first { result ≡ first (all_of chunks.old.items) }
    ensures rest { all_of chunks.new.items ≡ rest (all_of chunks.old.items) }
    ensures chunks { All IsChunk chunks.new.items }
    ensures spare { All IsSpare spare.new.items }
    ensures room { space_in chunks.old ≤ space_in chunks.new }
    ensures kept { length spare.old.items ≤ length spare.new.items }
{
    if chunks.is_empty() {
        return None;
    }
    let first = chunks[0].pop_front();
    if chunks[0].is_empty() {
        if let Some(chunk) = chunks.pop_front() {
            keep(spare, chunk);
        }
    }
    first
}

/// Puts another in the place of the first of a chunk.
pub(crate) fn replace_front<T: Placed>(chunk: &mut VecDeque<T>, other: T)
    requires { 0 < deque_len chunk.old }
    ensures items { chunk.new.items ≡ other ∷ drop 1 chunk.old.items }
    ensures len { deque_len chunk.new ≡ deque_len chunk.old }
    ensures capacity { deque_capacity chunk.new ≡ deque_capacity chunk.old }
{
    chunk[0] = other;
}

/// Puts another in the place of the first, which is there.
pub(crate) fn set_front<T: Placed>(chunks: &mut VecDeque<VecDeque<T>>, other: T)
    requires some { 0 < length (all_of chunks.old.items) }
    requires chunks { All IsChunk chunks.old.items }
    ensures items { all_of chunks.new.items ≡ other ∷ rest (all_of chunks.old.items) }
    ensures chunks { All IsChunk chunks.new.items }
    ensures room { IsAsLarge chunks.old chunks.new }
{
    replace_front(&mut chunks[0], other);
}

/// The first, if there is one.
pub(crate) fn front<'a, T: Placed>(chunks: &'a VecDeque<VecDeque<T>>) -> Option<&'a T>
    requires { All IsChunk chunks.now.items }
    ensures { option_copied result ≡ first (all_of chunks.now.items) }
{
    chunks.front()?.front()
}

/// Makes room for so many more, each of which may split a chunk.
pub(crate) fn reserve<T: Placed>(
    chunks: &mut VecDeque<VecDeque<T>>,
    spare: &mut Vec<VecDeque<T>>,
    more: usize,
) -> Result<(), Memory>
    requires { All IsSpare spare.old.items }
    ensures items { chunks.new.items ≡ chunks.old.items }
    ensures len { deque_len chunks.new ≡ deque_len chunks.old }
    ensures spare { All IsSpare spare.new.items }
    ensures room { OnOk result (deque_len chunks.new + more ≤ deque_capacity chunks.new) }
    ensures chunks { OnOk result (more ≤ length spare.new.items) }
    ensures kept { deque_capacity chunks.old ≤ deque_capacity chunks.new }
    ensures spare_kept { length spare.old.items ≤ length spare.new.items }
    ensures refused { OnErr result (LacksChunks more chunks.old spare.old.items) }
{
    chunks.reserve(more)?;
    while spare.len() < more {
        let chunk = VecDeque::with_capacity(*chunks.allocator(), MOST_IN_CHUNK)?;
        spare.push(chunk)?;
    }
    Ok(())
}
