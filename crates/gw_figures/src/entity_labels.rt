//! The figures of an entity, by its kind.

ghost use Rattle.std.specs.Prelude.{◌≡◌, ◌≤◌, ◌<◌, ◌+◌, ◌-◌, ◌++◌, [], ◌∷◌, OnOk, IfOk};
ghost use Rattle.gw_figures.specs.Labels as model;
ghost use Rattle.gw_figures.specs.Labels.{AddsFigures, Label, labels, plain};

use crate::figure::{Figure, put_content, put_detail, put_mean, put_named, put_plain};
use crate::percentiles::upper_limit;
use gw_object::{Entity, Kind, Memory, Table};
use gw_writing::{put, put_number};
use std::alloc::Global;

/// What the figures of an entity begin with: the word of its kind, its name, and a blank.
fn front_of(alloc: Global, word: &str, name: &[u8]) -> Result<Vec<u8>, Memory>
    ensures { IfOk result (λ front. front.items ≡ model.front_of word.now name.now) }
{
    let mut front = Vec::new(alloc);
    put(&mut front, word)?;
    front.extend_from_slice(name)?;
    put(&mut front, " ")?;
    Ok(front)
}

fn put_facility(alloc: Global, out: &mut Vec<Figure>, front: &[u8]) -> Result<(), Memory>
    ensures { AddsFigures result out.old out.new (model.facility_labels front.now) }
{
    put_plain(alloc, out, front, "ENTRIES")?;
    put_content(alloc, out, front, "WAIT")?;
    put_mean(alloc, out, front, "UTIL")?;
    put_mean(alloc, out, front, "TIME")
}

fn put_contents(alloc: Global, out: &mut Vec<Figure>, front: &[u8]) -> Result<(), Memory>
    ensures { AddsFigures result out.old out.new (model.contents_labels front.now) }
{
    put_content(alloc, out, front, "CONTENT")?;
    put_plain(alloc, out, front, "MAX")?;
    put_plain(alloc, out, front, "ENTRIES")
}

fn put_stay(alloc: Global, out: &mut Vec<Figure>, front: &[u8]) -> Result<(), Memory>
    ensures { AddsFigures result out.old out.new (model.stay_labels front.now) }
{
    put_mean(alloc, out, front, "AVG")?;
    put_mean(alloc, out, front, "TIME")
}

fn put_storage(alloc: Global, out: &mut Vec<Figure>, front: &[u8]) -> Result<(), Memory>
    ensures { AddsFigures result out.old out.new (model.storage_labels front.now) }
{
    put_contents(alloc, out, front)?;
    put_content(alloc, out, front, "WAIT")?;
    put_stay(alloc, out, front)
}

fn put_queue(alloc: Global, out: &mut Vec<Figure>, front: &[u8]) -> Result<(), Memory>
    ensures { AddsFigures result out.old out.new (model.queue_labels front.now) }
{
    put_contents(alloc, out, front)?;
    put_stay(alloc, out, front)
}

/// The least value of a class of a table, by its number, where it isn't the first.
fn least_value(table: &Table, class: u64) -> i128
    requires { 0 < class }
    ensures { result ≡ model.least_value table.now class }
{
    upper_limit(table, class - 1) + 1
}

/// What the part of the first class of a table is called, whose upper limit this is.
fn put_first_class(out: &mut Vec<u8>, limit: i64) -> Result<(), Memory>
    ensures { OnOk result (out.new.items ≡ out.old.items ++ model.first_class_text limit) }
{
    put_number(out, "TO ", limit)?;
    put(out, " SHARE")
}

/// What that of the last one is called, whose least value this is.
fn put_last_class(out: &mut Vec<u8>, least: i128) -> Result<(), Memory>
    ensures { OnOk result (out.new.items ≡ out.old.items ++ model.last_class_text least) }
{
    put_number(out, "FROM ", least)?;
    put(out, " SHARE")
}

/// What that of one between them is called, whose least value and upper limit these are.
fn put_class_between(out: &mut Vec<u8>, least: i128, limit: i128) -> Result<(), Memory>
    ensures { OnOk result
        (out.new.items ≡ out.old.items ++ model.class_between_text least limit) }
{
    put_number(out, "", least)?;
    put_number(out, " TO ", limit)?;
    put(out, " SHARE")
}

/// What the part of a class of a table is called, by its number, where so many are behind it.
fn put_class(out: &mut Vec<u8>, table: &Table, class: u64, left: u64) -> Result<(), Memory>
    ensures { OnOk result
        (out.new.items ≡ out.old.items ++ model.class_text table.now class left) }
{
    if class == 0 {
        put_first_class(out, table.limit)
    } else if left == 0 {
        put_last_class(out, least_value(table, class))
    } else {
        put_class_between(out, least_value(table, class), upper_limit(table, class))
    }
}

/// The same, as a text of its own.
fn class_text(alloc: Global, table: &Table, class: u64, left: u64) -> Result<Vec<u8>, Memory>
    ensures { IfOk result (λ text. text.items ≡ model.class_text table.now class left) }
{
    let mut text = Vec::new(alloc);
    put_class(&mut text, table, class, left)?;
    Ok(text)
}

/// The figures of the classes of a table, in order.
#[tactic(auto, unfolding(crate::specs::Labels::class_labels))]
fn put_classes(
    alloc: Global,
    out: &mut Vec<Figure>,
    front: &[u8],
    table: &Table,
) -> Result<(), Memory>
    ensures { AddsFigures result out.old out.new
        (model.all_class_labels table.now front.now) }
{
    let classes = u64::from(table.classes);
    for class in 0..classes {
        let text = class_text(alloc, table, class, classes - class - 1)?;
        put_named(alloc, out, front, &text)?;
    }
    Ok(())
}

fn put_table(
    alloc: Global,
    out: &mut Vec<Figure>,
    front: &[u8],
    table: &Table,
) -> Result<(), Memory>
    ensures { AddsFigures result out.old out.new
        (model.table_labels table.now front.now) }
{
    put_plain(alloc, out, front, "COUNT")?;
    put_plain(alloc, out, front, "SUM")?;
    put_mean(alloc, out, front, "MEAN")?;
    put_plain(alloc, out, front, "P50")?;
    put_plain(alloc, out, front, "P90")?;
    put_plain(alloc, out, front, "P95")?;
    put_classes(alloc, out, front, table)
}

/// The figures of an entity: a variable and a function have none.
pub(crate) fn put_entity(
    alloc: Global,
    out: &mut Vec<Figure>,
    entity: &Entity,
) -> Result<(), Memory>
    ensures { AddsFigures result out.old out.new
        (model.kind_labels entity.now.kind entity.now.name) }
{
    let name = entity.name.as_slice();
    match &entity.kind {
        Kind::Facility => put_facility(alloc, out, &front_of(alloc, "FACILITY ", name)?),
        Kind::Storage(_) => put_storage(alloc, out, &front_of(alloc, "STORAGE ", name)?),
        Kind::Queue => put_queue(alloc, out, &front_of(alloc, "QUEUE ", name)?),
        Kind::Switch(_) => put_detail(alloc, out, &front_of(alloc, "SWITCH ", name)?, "SET"),
        Kind::Savevalue(_) => put_plain(alloc, out, &front_of(alloc, "SAVEVALUE ", name)?, "VALUE"),
        Kind::Table(table) => put_table(alloc, out, &front_of(alloc, "TABLE ", name)?, table),
        Kind::Chain => put_detail(alloc, out, &front_of(alloc, "CHAIN ", name)?, "CONTENT"),
        Kind::Variable(_) | Kind::BooleanVariable(_) | Kind::Function(_) => Ok(()),
    }
}
