//! A walk over the members of buckets in a row.

ghost use Rattle.std.specs.Prelude.{◌≡◌, ◌≤◌, ◌<◌, ◌+◌, ◌^◌};
ghost use Rattle.slab.specs.Slab.{get};
ghost use Rattle.gw_chains.specs.Buckets.{total, AreBuckets};
ghost use Rattle.gw_chains.specs.Spots.{count_at, first_at, IsSpot, IsWalk, IsToBegin, IsWalkOrBegins, count_before};

use crate::bucket::{Bucket, Link, Ranked};
use crate::spot::{Spot, link_at, settle, start_of};
use slab::Slab;
use std::collections::VecDeque;

/// A walk over the members of buckets in a row: it is at one of them, or at the end of all.
#[derive(Clone, Copy)]
pub struct Walk {
    /// Where it is.
    pub spot: Spot,
    /// The link of the member there; at the end it means nothing.
    pub here: usize,
    /// How many of its bucket are left, that member among them; none at the end.
    pub left: usize,
}

/// The walk at the first member of a bucket; at the end of all where there is no such bucket.
pub(crate) fn walk_from(row: &VecDeque<Bucket>, bucket: usize) -> Walk
    ensures bucket { result.spot.bucket ≡ bucket }
    ensures passed { result.spot.passed ≡ 0 }
    ensures here { result.here ≡ first_at row.now.items bucket }
    ensures left { result.left ≡ count_at row.now.items bucket }
{
    let spot = start_of(bucket);
    if row.len() <= bucket {
        return Walk {
            spot,
            here: 0,
            left: 0,
        };
    }
    let begun = &row[bucket];
    Walk {
        spot,
        here: begun.first,
        left: begun.count,
    }
}

/// A walk that is still to begin: at the first member, if there is one.
pub(crate) fn walk_to_begin() -> Walk
    ensures { IsToBegin result }
{
    Walk {
        spot: start_of(0),
        here: 0,
        left: 0,
    }
}

/// A walk, begun where it was still to begin.
pub(crate) fn begin_walk<T: Ranked>(
    walk: Walk,
    row: &VecDeque<Bucket>,
    _links: &Slab<Link<T>>,
) -> Walk
    requires buckets { AreBuckets T.rank (get _links.now) row.now.items }
    requires walk { IsWalkOrBegins (get _links.now) row.now.items walk }
    ensures walk { IsWalk (get _links.now) row.now.items result }
    ensures place { count_before row.now.items result.spot ≡ count_before row.now.items walk.spot }
{
    if walk.left == 0 {
        return walk_from(row, walk.spot.bucket);
    }
    walk
}

/// The walk at a spot; where that is the end of a bucket, at the next one.
pub(crate) fn walk_at<T: Ranked>(row: &VecDeque<Bucket>, links: &Slab<Link<T>>, spot: Spot) -> Walk
    requires buckets { AreBuckets T.rank (get links.now) row.now.items }
    requires spot { IsSpot (get links.now) row.now.items spot }
    ensures walk { IsWalk (get links.now) row.now.items result }
    ensures place { count_before row.now.items result.spot ≡ count_before row.now.items spot }
{
    if spot.passed == 0 {
        return walk_from(row, spot.bucket);
    }
    let spot = settle(row, spot);
    if row.len() <= spot.bucket {
        return walk_from(row, spot.bucket);
    }
    Walk {
        spot,
        here: link_at(row, links, spot),
        left: row[spot.bucket].count - spot.passed,
    }
}

/// A walk goes on past the member to which it has come. It is not at the end.
pub(crate) fn advance<T: Ranked>(walk: &mut Walk, row: &VecDeque<Bucket>, links: &Slab<Link<T>>)
    requires buckets { AreBuckets T.rank (get links.now) row.now.items }
    requires few { total row.now.items ≤ 2 ^ 62 }
    requires walk { IsWalk (get links.now) row.now.items walk.old }
    requires there { 0 < walk.old.left }
    ensures walk { IsWalk (get links.now) row.now.items walk.new }
    ensures place { count_before row.now.items walk.new.spot ≡ count_before row.now.items walk.old.spot + 1 }
{
    if walk.left == 1 {
        *walk = walk_from(row, walk.spot.bucket + 1);
    } else {
        *walk = Walk {
            spot: Spot {
                bucket: walk.spot.bucket,
                passed: walk.spot.passed + 1,
                before: walk.here,
            },
            here: links[walk.here].next,
            left: walk.left - 1,
        };
    }
}
