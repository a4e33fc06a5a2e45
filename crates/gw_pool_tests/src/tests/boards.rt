//! What seats read of what is published, one after another and side by side.

ghost use Rattle.std.specs.Prelude.{◌≡◌, ◌<◌};

use super::tables::{Trial, make_7, submit, wrong_of};
use gw_jobs::Returned;
use gw_object::Memory;
use gw_pool::{Board, Seat, Share, Shared};
use gw_samples::first_wrong;
use std::alloc::Global;
use std::sync::Wait;
use std::sync::ledger::Ledger;
use std::test::Fail;
use std::thread;
use std::thread::Threads;

/// How often the count is read.
const READINGS: u32 = 10_000;

/// Publishes two returns, one after the other.
fn publish_both(board: &Board, seat: Seat, first: &Returned, second: &Returned) -> Seat
    requires { seat.board ≡ board.now }
    ensures { result.board ≡ board.now }
{
    let mut seat = seat;
    board.publish(&mut seat, first);
    thread::yield_now();
    board.publish(&mut seat, second);
    seat
}

/// Reads slot 0 again and again, and answers whether it always read 0, 7 or 14, and never less than before.
fn readings_rise(board: &Board, seat: Seat) -> (Seat, bool)
    requires { seat.board ≡ board.now }
    ensures { result.0.board ≡ board.now }
{
    let mut seat = seat;
    let mut last = 0;
    let mut rises = true;
    for _ in 0..READINGS {
        let read = board.progress(&mut seat, 0);
        rises = rises && read >= last && (read == 0 || read == 7 || read == 14);
        last = read;
    }
    (seat, rises)
}

/// A thread publishes two returns, and another reads beside it: whether its readings rose.
fn read_beside<W: Threads + Wait + Sync>(
    rt: &W,
    board: &Board,
    seat: Seat,
    first: &Returned,
    second: &Returned,
) -> (Seat, bool)
    requires { seat.board ≡ board.now }
    ensures { result.0.board ≡ board.now }
{
    let (publisher, reader) = board.split(seat);
    let (publisher, (reader, rises)) = thread::join(
        rt,
        move || -> Seat
            requires { publisher.board ≡ board.now }
            ensures { result.board ≡ board.entry.now }
        { publish_both(board, publisher, first, second) },
        move || -> (Seat, bool)
            requires { reader.board ≡ board.now }
            ensures { result.0.board ≡ board.entry.now }
        { readings_rise(board, reader) },
    );
    (board.join(reader, publisher), rises)
}

/// The return of a job after 7 steps is published, then that after 14 steps and once more the first, which comes late and lowers
/// no count: so slot 0 is read as 0, as 7 and at last as 14, and slot 5 as 0.
fn wrong_of_readings<W: Threads + Wait + Sync>(
    rt: &W,
    alloc: Global,
    first: &Returned,
    second: &Returned,
) -> Result<Option<usize>, Memory> {
    let (board, mut seat) = Board::new(alloc)?;
    let none = board.progress(&mut seat, 0);
    board.publish(&mut seat, first);
    let half = board.progress(&mut seat, 0);
    let (mut seat, rises) = read_beside(rt, &board, seat, second, first);
    let whole = board.progress(&mut seat, 0);
    let idle = board.progress(&mut seat, 5);
    Ok(first_wrong(&[none == 0, half == 7, rises, whole == 14, idle == 0]))
}

/// The same of the returns of a job in slices of 7 steps.
pub(super) fn wrong_of_returns<R: Ledger, S: Ledger, W: Threads + Wait + Sync>(
    rt: &W,
    alloc: Global,
    shared: &mut Shared<R, S>,
    share: &mut Share<R, S>,
) -> Result<Option<usize>, Memory>
    requires { 0 < share.old.parts }
{
    submit(alloc, shared, 1)?;
    let (first, _) = make_7(shared, share)?;
    let (second, _) = make_7(shared, share)?;
    wrong_of_readings(rt, alloc, &first, &second)
}

#[test]
fn a_published_return_is_read(rt: HostRuntime) -> Result<(), Fail> {
    assert!(rt; wrong_of(&rt, rt.alloc(), Trial::Returns)?.is_none());
    Ok(())
}
