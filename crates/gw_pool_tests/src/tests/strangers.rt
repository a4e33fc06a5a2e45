//! Tasks of other tables for the same slot and job.

use super::calls::{comes_back, make_slice, next_task, polled, submit, told, told_after};
use super::jobs::pass_for;
use gw_jobs::{Pass, State, Table, Task};
use gw_object::Memory;
use gw_samples::{THREE_BLOCKS, first_wrong};
use std::alloc::Global;
use std::test::Fail;

/// Whether the one row of a table stands so, with all the steps that were given back.
fn stands(table: &Table, pass: &Pass, state: State, steps: u64, out: u32) -> bool {
    polled(table, pass) == Ok((state, steps))
        && table.steps() == u128::from(steps)
        && table.out() == out
}

/// Whether a task comes back, and once more.
fn comes_back_twice(table: &mut Table, task: Task) -> bool {
    match table.give_back(task) {
        Ok(_) => false,
        Err(task) => told(table, task).is_none(),
    }
}

/// Whether a task that came back with 2 steps changed nothing, and is taken after 5 more.
fn is_taken_with_more(table: &mut Table, pass: &Pass, stray: Task) -> bool {
    let same = stray.steps() == 2 && stands(table, pass, State::Out, 3, 1);
    told_after(table, stray, 5) == Some((0, 1, 7, false, false)) && same
}

/// Whether a task comes back after 2 steps, of a row that had 3 when it was taken, and is taken after 7.
fn is_taken_late(table: &mut Table, pass: &Pass, mut stray: Task) -> bool {
    make_slice(&mut stray, 2);
    match table.give_back(stray) {
        Ok(_) => false,
        Err(stray) => is_taken_with_more(table, pass, stray),
    }
}

/// Whether that is so of the next task of another table.
fn takes_a_stranger(table: &mut Table, other: &mut Table, pass: &Pass) -> bool {
    match next_task(other) {
        Some(stray) => is_taken_late(table, pass, stray),
        None => false,
    }
}

/// Whether that is so while this task, its own, makes 4 steps, which comes back then.
fn own_comes_back(table: &mut Table, other: &mut Table, pass: &Pass, mut own: Task) -> bool {
    make_slice(&mut own, 4);
    let replaced = own.steps() == 7 && takes_a_stranger(table, other, pass);
    comes_back_twice(table, own) && replaced
}

/// Whether that is so of the job, which is taken again after 3 steps.
fn is_replaced(table: &mut Table, other: &mut Table, pass: &Pass) -> bool {
    match next_task(table) {
        Some(own) => own_comes_back(table, other, pass, own),
        None => false,
    }
}

/// Whether the next task makes 3 steps, and is taken back.
fn makes_3(table: &mut Table) -> bool {
    match next_task(table) {
        Some(task) => told_after(table, task, 3) == Some((0, 1, 3, false, false)),
        None => false,
    }
}

/// The place of the first that isn't as it must be of a job that two other tables have too, of which one's task comes while it
/// isn't taken, and the other's while it is.
fn wrong_of_strangers(
    alloc: Global,
    table: &mut Table,
    idle: &mut Table,
    other: &mut Table,
    pass: &Pass,
) -> Option<usize> {
    first_wrong(&[
        submit(alloc, table, 1, THREE_BLOCKS) == Ok(0),
        submit(alloc, idle, 2, THREE_BLOCKS) == Ok(0),
        submit(alloc, other, 2, THREE_BLOCKS) == Ok(0),
        comes_back(table, idle) == Some(true),
        stands(table, pass, State::Ready, 0, 0),
        makes_3(table),
        is_replaced(table, other, pass),
        stands(table, pass, State::Ready, 7, 0),
    ])
}

/// Whether nothing is wrong in these tables.
fn is_right(
    alloc: Global,
    table: &mut Table,
    idle: &mut Table,
    other: &mut Table,
) -> Result<bool, Memory> {
    let pass = pass_for(alloc, 1, 0, THREE_BLOCKS)?;
    Ok(wrong_of_strangers(alloc, table, idle, other, &pass).is_none())
}

#[test]
fn task_of_another_table_comes_in_place_of_the_own(rt: HostRuntime) -> Result<(), Fail> {
    let mut table = Table::new(rt.alloc())?;
    let mut idle = Table::new(rt.alloc())?;
    let mut other = Table::new(rt.alloc())?;
    assert!(rt; is_right(rt.alloc(), &mut table, &mut idle, &mut other)?);
    Ok(())
}
