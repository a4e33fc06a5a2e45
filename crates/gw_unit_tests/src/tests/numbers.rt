//! Arithmetic and streams of random numbers: that the rules are those meant.

use gw_num::{NumFault, Stream, add, mul, neg, sub};
use gw_samples::first_wrong;
use std::test::Fail;

const LEAST: i64 = i64::MIN;

const GREATEST: i64 = i64::MAX;

/// What arithmetic answers.
type Answer = Result<i64, NumFault>;

const NUMBER: Answer = Err(NumFault::Number);

/// The place, from 0, of the first answer that is not the one beside it.
fn wrong_answer(answers: &[(Answer, Answer)]) -> Option<usize> {
    for i in 0..answers.len() {
        let (answer, due) = answers[i];
        if answer != due {
            return Some(i);
        }
    }
    None
}

#[test]
fn sums_differences_and_products_are_exact(rt: HostRuntime) {
    let answers = [
        (add(2, 3), Ok(5)),
        (add(GREATEST, 1), NUMBER),
        (sub(2, 3), Ok(-1)),
        (sub(LEAST, 1), NUMBER),
        (mul(-4, 3), Ok(-12)),
        (mul(LEAST, -1), NUMBER),
        (neg(7), Ok(-7)),
        (neg(LEAST), NUMBER),
    ];
    assert!(rt; wrong_answer(&answers).is_none());
}

/// Which of the first draws of each kind are those of seed 1.
fn draws_of_seed_1(seed_1: Stream) -> [bool; 9] {
    let mut numbers = seed_1;
    let mut thousandths = seed_1;
    let mut millionths = seed_1;
    let mut times = seed_1;
    [
        numbers.next() == 48_271,
        numbers.next() == 182_605_794,
        thousandths.thousandths() == 271,
        thousandths.thousandths() == 794,
        millionths.millionths() == 48_271,
        millionths.millionths() == 605_794,
        times.spread(10, 5) == Ok(8),
        times.spread(10, 5) == Ok(13),
        times == numbers,
    ]
}

#[test]
fn seed_1_gives_48271_and_182605794(rt: HostRuntime) -> Result<(), Fail> {
    let seed_1 = Stream::new(1).ok_or("1 is a seed")?;
    assert!(rt; first_wrong(&draws_of_seed_1(seed_1)).is_none());
    Ok(())
}

/// Which times without a range or with a fault are the ones due, and whether they left the stream where it was.
fn times_without_a_draw(fresh: Stream) -> [bool; 6] {
    let mut stream = fresh;
    [
        stream.spread(10, 0) == Ok(10),
        stream.spread(10, -1) == NUMBER,
        stream.spread(LEAST, 1) == NUMBER,
        stream.spread(0, GREATEST) == NUMBER,
        stream.spread(GREATEST, 3) == NUMBER,
        stream == fresh,
    ]
}

#[test]
fn a_time_without_range_or_with_a_fault_draws_nothing(rt: HostRuntime) -> Result<(), Fail> {
    let fresh = Stream::new(1).ok_or("1 is a seed")?;
    assert!(rt; first_wrong(&times_without_a_draw(fresh)).is_none());
    Ok(())
}
