//! Both bodies of the future events chain, of the current events chain and of a delay list.

use gw_chains::{Cec, DelayList, Fec};
use gw_members::{Event, Member, Tx};
use gw_plain_chains::{
    CallTarget, ChainCall, DelayCall, EventCall, PriorityCall, make_calls, plain,
};
use std::alloc::Global;

/// The transaction of a number.
macro_rules! tx {
    ($number:expr) => {
        Tx {
            place: 0,
            number: $number,
        }
    };
}

/// That the transaction of a number leaves by a call.
macro_rules! leaves {
    ($number:expr) => {
        Some(tx!($number))
    };
}

/// The call that schedules the transaction of a number for a time.
macro_rules! schedule {
    ($number:expr, $time:expr) => {
        EventCall::Schedule(Event {
            tx: tx!($number),
            time: $time,
        })
    };
}

/// The member of a number and a priority.
macro_rules! member {
    ($number:expr, $priority:expr) => {
        Member {
            tx: tx!($number),
            priority: $priority,
        }
    };
}

/// Whether a chain with no member answers calls so.
fn is_answered<M, K: ChainCall<M>, C: CallTarget<M, K> + Drop>(
    alloc: Global,
    mut chain: C,
    calls: &[K],
    answers: &[Option<Tx>],
) -> bool {
    let mut found = Vec::new(alloc);
    make_calls(&mut chain, calls, &mut found).is_ok() && found.as_slice() == answers
}

/// 1 and 3 are scheduled for 9 and 2 for 4, and those that are due at 8 and at 9 leave.
const EVENT_CALLS: [EventCall; 8] = [
    schedule!(1, 9),
    schedule!(2, 4),
    schedule!(3, 9),
    EventCall::PopDue(8),
    EventCall::PopDue(8),
    EventCall::PopDue(9),
    EventCall::PopDue(9),
    EventCall::PopDue(9),
];

/// What each of these calls answers.
const EVENT_ANSWERS: [Option<Tx>; 8] = [
    None,
    None,
    None,
    leaves!(2),
    None,
    leaves!(1),
    leaves!(3),
    None,
];

/// 1, 2 and 4 join behind their peers and 3 ahead of them, and all leave.
const PRIORITY_CALLS: [PriorityCall; 9] = [
    PriorityCall::InsertBehind(member!(1, 0)),
    PriorityCall::InsertBehind(member!(2, 5)),
    PriorityCall::InsertAhead(member!(3, 0)),
    PriorityCall::InsertBehind(member!(4, 5)),
    PriorityCall::PopFirst,
    PriorityCall::PopFirst,
    PriorityCall::PopFirst,
    PriorityCall::PopFirst,
    PriorityCall::PopFirst,
];

/// What each of these calls answers.
const PRIORITY_ANSWERS: [Option<Tx>; 9] = [
    None,
    None,
    None,
    None,
    leaves!(2),
    leaves!(4),
    leaves!(3),
    leaves!(1),
    None,
];

/// Calls, with what is left of the list behind each of them.
const DELAY_CALLS: [DelayCall; 23] = [
    DelayCall::Join(member!(1, 0)),
    DelayCall::Join(member!(2, 5)),
    DelayCall::Join(member!(3, 0)),
    DelayCall::Join(member!(4, 5)),
    // 2, 4, 1, 3, 5
    DelayCall::Join(member!(5, 0)),
    DelayCall::StartWalk,
    DelayCall::Pass,
    // 2, 1, 3, 5
    DelayCall::Take,
    DelayCall::Pass,
    // 2, 1, 5
    DelayCall::Take,
    // 2, 1
    DelayCall::Take,
    DelayCall::Pass,
    DelayCall::Take,
    // 2, 1, 6
    DelayCall::Join(member!(6, 0)),
    // 2, 7, 1, 6, and the walk is at the first again
    DelayCall::Join(member!(7, 5)),
    // 2, 1, 6
    DelayCall::Remove(1),
    DelayCall::Remove(5),
    // 1, 6
    DelayCall::Take,
    // 6
    DelayCall::Take,
    // 8, 6
    DelayCall::Join(member!(8, 5)),
    // 6
    DelayCall::Remove(0),
    DelayCall::Remove(0),
    DelayCall::Remove(0),
];

/// What each of these calls answers: who is passed, taken out or removed.
const DELAY_ANSWERS: [Option<Tx>; 23] = [
    None,
    None,
    None,
    None,
    None,
    None,
    leaves!(2),
    leaves!(4),
    leaves!(1),
    leaves!(3),
    leaves!(5),
    None,
    None,
    None,
    None,
    leaves!(7),
    None,
    leaves!(2),
    leaves!(1),
    None,
    leaves!(8),
    leaves!(6),
    None,
];

/// Whether two are scheduled on an empty chain, which then tells how many they are and the earlier time.
fn schedules_two(chain: &mut Fec) -> bool {
    let is_empty = chain.len() == 0 && chain.first_time().is_none();
    if chain.reserve(2).is_err() {
        return false;
    }
    chain.schedule(tx!(1), 9);
    chain.schedule(tx!(2), 4);
    is_empty && chain.len() == 2 && chain.first_time() == Some(4)
}

/// Whether the plain future events chain tells its members, once three are scheduled on it: how many, and the first time.
fn tells_three(alloc: Global, mut chain: plain::Fec) -> bool {
    let mut found = Vec::new(alloc);
    make_calls(&mut chain, &EVENT_CALLS[..3], &mut found).is_ok()
        && chain.len() == 3
        && chain.iter().count() == 3
        && chain.first_time() == Some(4)
}

/// Whether the plain current events chain tells that it is empty, and how many it has once four joined.
fn tells_four(alloc: Global, mut chain: plain::Cec) -> bool {
    let is_empty = chain.is_empty();
    let mut found = Vec::new(alloc);
    make_calls(&mut chain, &PRIORITY_CALLS[..4], &mut found).is_ok() && is_empty && chain.len() == 4
}

/// Whether the plain delay list tells how many it has once five joined.
fn tells_five(alloc: Global, mut chain: plain::DelayList) -> bool {
    let mut found = Vec::new(alloc);
    make_calls(&mut chain, &DELAY_CALLS[..5], &mut found).is_ok() && chain.len() == 5
}

#[test]
fn bodies_of_one_chain_answer_alike(rt: HostRuntime) {
    let alloc = rt.alloc();
    let holds = [
        is_answered(alloc, Fec::new(alloc), &EVENT_CALLS, &EVENT_ANSWERS),
        is_answered(alloc, plain::Fec::new(alloc), &EVENT_CALLS, &EVENT_ANSWERS),
        is_answered(alloc, Cec::new(alloc), &PRIORITY_CALLS, &PRIORITY_ANSWERS),
        is_answered(
            alloc,
            plain::Cec::new(alloc),
            &PRIORITY_CALLS,
            &PRIORITY_ANSWERS,
        ),
        is_answered(alloc, DelayList::new(alloc), &DELAY_CALLS, &DELAY_ANSWERS),
        is_answered(
            alloc,
            plain::DelayList::new(alloc),
            &DELAY_CALLS,
            &DELAY_ANSWERS,
        ),
        schedules_two(&mut Fec::new(alloc)),
        tells_three(alloc, plain::Fec::new(alloc)),
        tells_four(alloc, plain::Cec::new(alloc)),
        tells_five(alloc, plain::DelayList::new(alloc)),
    ];
    assert!(rt; holds == [true; 10]);
}
