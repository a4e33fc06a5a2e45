//! What shares count of a table.

ghost use Rattle.std.specs.Prelude.{◌≡◌, ◌<◌};
ghost use Rattle.gw_pool.specs.Shares.{all_parts};

use super::tables::{Trial, make_7, submit, wrong_of};
use gw_object::Memory;
use gw_pool::{Share, Shared};
use gw_samples::first_wrong;
use std::alloc::Global;
use std::sync::ledger::Ledger;
use std::test::Fail;

/// The steps and the rows that a share counts.
fn counts<R: Ledger, S: Ledger>(share: &Share<R, S>) -> (u128, u32) {
    (share.steps(), share.rows())
}

/// Two shares of a table with two jobs make 7 steps each, and the first of them 7 more. Answers the rows that the second has
/// while its task is out.
fn make_slices<R: Ledger, S: Ledger>(
    alloc: Global,
    shared: &mut Shared<R, S>,
    share: &mut Share<R, S>,
    other: &mut Share<R, S>,
) -> Result<u32, Memory>
    requires first { 0 < share.old.parts }
    requires second { 0 < other.old.parts }
    ensures first { share.new.parts ≡ share.old.parts }
    ensures second { other.new.parts ≡ other.old.parts }
{
    submit(alloc, shared, 1)?;
    submit(alloc, shared, 2)?;
    make_7(shared, share)?;
    let (_, meanwhile) = make_7(shared, other)?;
    make_7(shared, share)?;
    Ok(meanwhile)
}

/// The first of two shares makes 14 steps and the second 7; then they are joined.
pub(super) fn wrong_of_counts<R: Ledger, S: Ledger>(
    alloc: Global,
    shared: &mut Shared<R, S>,
    share: &mut Share<R, S>,
) -> Option<usize>
    requires { share.old.parts ≡ all_parts }
{
    let mut other = share.split(1);
    let meanwhile = make_slices(alloc, shared, share, &mut other);
    let first = counts(share);
    let second = counts(&other);
    shared.audit(share);
    shared.audit(&mut other);
    share.join(other);
    first_wrong(&[
        meanwhile == Ok(1),
        first == (14, 0),
        second == (7, 0),
        counts(share) == (21, 0),
        shared.audit(share) == (21, 0),
        shared.steps() == 21,
        shared.out() == 0,
    ])
}

#[test]
fn shares_count_what_the_table_does(rt: HostRuntime) -> Result<(), Fail> {
    assert!(rt; wrong_of(&rt, rt.alloc(), Trial::Shares)?.is_none());
    Ok(())
}
