//! Where a member stands among buckets in a row, as a walk over them comes to it.

ghost use Rattle.std.specs.Prelude.{◌≡◌, ◌≤◌, ◌<◌, ◌⊎◌};
ghost use Rattle.slab.specs.Slab.{get};
ghost use Rattle.gw_chains.specs.Buckets.{run, last_or, total, AreBuckets};
ghost use Rattle.gw_chains.specs.Spots.{count_at, place_at, link_at, AreThere, AreFilled, IsSpot, IsSettled, count_before, HasMemberAt};

use crate::bucket::{Bucket, Link, Ranked};
use slab::Slab;
use std::collections::VecDeque;

/// Where a member stands: in which bucket of a row, and behind which of it. Or the end of a bucket, or of all of them.
#[derive(Clone, Copy)]
pub struct Spot {
    /// The number of its bucket, from 0.
    pub bucket: usize,
    /// How many of that bucket stand before it.
    pub passed: usize,
    /// The link of the last of those; where there is none it means nothing.
    pub before: usize,
}

/// The spot at which a bucket begins.
pub(crate) fn start_of(bucket: usize) -> Spot
    ensures bucket { result.bucket ≡ bucket }
    ensures passed { result.passed ≡ 0 }
{
    Spot {
        bucket,
        passed: 0,
        before: 0,
    }
}

/// The link of the member at a spot. There is one.
pub(crate) fn link_at<T: Ranked>(row: &VecDeque<Bucket>, links: &Slab<Link<T>>, spot: Spot) -> usize
    requires buckets { AreBuckets T.rank (get links.now) row.now.items }
    requires spot { IsSpot (get links.now) row.now.items spot }
    requires there { spot.passed < count_at row.now.items spot.bucket }
    ensures { result ≡ link_at (get links.now) row.now.items spot.bucket spot.passed }
{
    if spot.passed == 0 {
        row[spot.bucket].first
    } else {
        links[spot.before].next
    }
}

/// The same place, at a member where it was the end of a bucket and there is a next one.
pub(crate) fn settle(row: &VecDeque<Bucket>, spot: Spot) -> Spot
    requires filled { AreFilled row.now.items }
    requires within { spot.passed ≤ count_at row.now.items spot.bucket }
    ensures place { count_before row.now.items result ≡ count_before row.now.items spot }
    ensures kept { (result ≡ spot) ⊎ (result.passed ≡ 0) }
    ensures settled { IsSettled row.now.items result }
{
    if spot.bucket < row.len() && spot.passed == row[spot.bucket].count {
        start_of(spot.bucket + 1)
    } else {
        spot
    }
}

/// The number of the bucket of the member at this place of all, from 0, and how many of that bucket stand before it. There
/// is one.
fn bucket_of(row: &VecDeque<Bucket>, place: usize) -> (usize, usize)
    requires { place < total row.now.items }
    ensures inside { result.1 < count_at row.now.items result.0 }
    ensures place { place_at row.now.items result.0 result.1 ≡ place }
{
    let mut bucket = 0;
    let mut passed = place;
    while row[bucket].count <= passed {
        passed -= row[bucket].count;
        bucket += 1;
    }
    (bucket, passed)
}

/// The last of so many links, from a first one on; that one where they are none.
fn last_link<T: Ranked>(links: &Slab<Link<T>>, first: usize, count: usize) -> usize
    requires { AreThere (get links.now) (run (get links.now) count first) }
    ensures { result ≡ last_or first (run (get links.now) count first) }
{
    let mut last = first;
    let mut left = count;
    while 1 < left {
        last = links[last].next;
        left -= 1;
    }
    last
}

/// The spot of the member at this place of all, from 0. There is one.
pub(crate) fn spot_of<T: Ranked>(
    row: &VecDeque<Bucket>,
    links: &Slab<Link<T>>,
    place: usize,
) -> Spot
    requires buckets { AreBuckets T.rank (get links.now) row.now.items }
    requires there { place < total row.now.items }
    ensures spot { IsSpot (get links.now) row.now.items result }
    ensures there { result.passed < count_at row.now.items result.bucket }
    ensures place { count_before row.now.items result ≡ place }
{
    let (bucket, passed) = bucket_of(row, place);
    let before = last_link(links, row[bucket].first, passed);
    Spot {
        bucket,
        passed,
        before,
    }
}

/// The member at this place of all, from 0. There is one.
pub(crate) fn member_at<T: Ranked>(row: &VecDeque<Bucket>, links: &Slab<Link<T>>, place: usize) -> T
    requires buckets { AreBuckets T.rank (get links.now) row.now.items }
    requires there { place < total row.now.items }
    ensures { HasMemberAt place result links.now row.now }
{
    if place == 0 {
        return links[row[0].first].member;
    }
    let spot = spot_of(row, links, place);
    links[link_at(row, links, spot)].member
}
