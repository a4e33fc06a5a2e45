//! The state table of an object, found from its entities, procedures and blocks alone.

ghost use Rattle.std.specs.Prelude.{◌≡◌, IfOk, IfErr};
ghost use Rattle.gw_object.specs.Grammar.{HasSpelling};
ghost use Rattle.gw_object.specs.Reading.{out_of_memory};
ghost use Rattle.gw_rules.specs.Pass.{KindsPass};
ghost use Rattle.gw_rules.specs.PlusChecks.{PlusPasses};
ghost use Rattle.gw_rules.specs.Flow.{own_table, FlowPasses};
ghost use Rattle.gw_settle.specs.Keeps.{IsWell};
ghost use Rattle.gw_settle.specs.Settles as model;
ghost use Rattle.gw_settle.specs.declared.written.Stop.TheVariants as stops;

use crate::codes::LIMIT;
use crate::rounds::settled_rows;
use crate::written::{Stop, Written, table_written};
use gw_flow::check_flow;
use gw_object::codes::MEMORY;
use gw_object::{Fault, Object, Parts, Place};
use gw_object_bytes::build;
use std::alloc::{AllocError, Global};
use std::mem::swap;

/// That memory ran out.
const OUT_OF_MEMORY: Fault = Fault {
    code: MEMORY,
    place: Place::Nowhere,
};

/// That the table passes a limit.
const PAST_LIMIT: Fault = Fault {
    code: LIMIT,
    place: Place::Nowhere,
};

/// The fault of a table that can't be written.
fn fault_of(stop: Stop) -> Fault
    ensures memory { stop ≡ stops.Memory → result ≡ out_of_memory }
    ensures limit { stop ≡ stops.Limit → result ≡ model.past_limit }
{
    match stop {
        Stop::Limit => PAST_LIMIT,
        Stop::Memory => OUT_OF_MEMORY,
    }
}

/// The assembler's state table of an object of which kinds pass, as an object has it, also where flow refuses it. It is refused
/// with 82 Limit at Nowhere where it has more sets of blocks than an object may have return rows, or an amount above
/// [`GREATEST_UNITS`](gw_object::GREATEST_UNITS), so that no object with it has a spelling, or with 8 Memory at Nowhere.
pub fn table_of(alloc: Global, parts: &Parts) -> Result<Written, Fault>
    requires { IsWell parts.now }
    ensures table { IfOk result (λ table. model.IsTableOf parts.now table) }
    ensures refused { IfErr result (model.IsNoFlowFault parts.now) }
{
    match settled_rows(alloc, parts) {
        Ok(rows) => match table_written(alloc, &rows.blocks, &rows.chains) {
            Ok(table) => Ok(table),
            Err(stop) => Err(fault_of(stop)),
        },
        Err(AllocError) => Err(OUT_OF_MEMORY),
    }
}

/// Parts and a state table that change places.
fn exchange(parts: &mut Parts, table: &mut Written)
    ensures parts { parts.new ≡ model.with_written parts.old table.old }
    ensures returns { table.new.returns ≡ parts.old.returns }
    ensures states { table.new.states ≡ parts.old.states }
    ensures chain_states { table.new.chain_states ≡ parts.old.chain_states }
{
    swap(&mut parts.returns, &mut table.returns);
    swap(&mut parts.states, &mut table.states);
    swap(&mut parts.chain_states, &mut table.chain_states);
}

/// The object of parts with the table that they had.
fn restored(parts: Parts, table: Written) -> Object
    requires { HasSpelling (model.with_written parts table) }
    ensures { result ≡ model.with_written parts table }
{
    let mut parts = parts;
    let mut table = table;
    exchange(&mut parts, &mut table);
    build(parts).unwrap()
}

/// An object, if flow passes; else its parts with the table that they had, and the fault.
fn checked(alloc: Global, settled: Object, table: Written) -> Result<Object, (Object, Fault)>
    requires kinds { KindsPass settled }
    requires spelled { HasSpelling (model.with_written settled table) }
    ensures passed { IfOk result (λ o. (o ≡ settled) × FlowPasses settled (own_table settled)) }
    ensures unchanged { IfErr result (λ e. e.0 ≡ model.with_written settled table) }
    ensures refused { IfErr result (λ e. model.IsFlowFault settled e.1) }
{
    match check_flow(alloc, &settled) {
        Ok(()) => Ok(settled),
        Err(fault) => Err((restored(settled.into_parts(), table), fault)),
    }
}

/// An object with this table, and the table that it had; as it was, where it then has no spelling.
fn with_table(object: Object, table: Written) -> Result<(Object, Written), Object>
    requires { HasSpelling object }
    ensures there { IfOk result (λ pair. pair.0 ≡ model.with_written object table) }
    ensures back { IfOk result (λ pair. model.with_written pair.0 pair.1 ≡ object) }
    ensures unchanged { IfErr result (λ o. o ≡ object) }
    ensures refused { IfErr result (λ _. ¬ HasSpelling (model.with_written object table)) }
{
    let mut parts = object.into_parts();
    let mut table = table;
    exchange(&mut parts, &mut table);
    match build(parts) {
        Ok(settled) => Ok((settled, table)),
        Err((parts, _)) => Err(restored(parts, table)),
    }
}

/// An object, of which kinds and PLUS code pass, with the assembler's state table and return rows in place of its own. The
/// table is found from the entities, procedures and blocks alone, in rounds over the blocks in ascending order: a block whose
/// rules hold in its row sends its edges; a target without a row takes the state, else the row keeps what it and the state
/// both know, and its facilities. The rounds end with one that changes nothing. Return rows are numbered in order of first
/// sight, and equal sets of blocks share one.
///
/// An object that is refused comes back as it was: with 82 Limit at Nowhere where the table passes a limit of the object
/// format, which is where no object with the table has a spelling, else with the first fault of [`check_flow`], 20 to 28, or
/// with 8 Memory at Nowhere. Where flow passes with any table at all, none of 20 to 28 is answered, unless a parameter keeps
/// the return of a TRANSFER to a subroutine and is added to or subtracted from by an ASSIGN (ours: docs/object-format.md).
pub fn settle(alloc: Global, object: Object) -> Result<Object, (Object, Fault)>
    requires kinds { KindsPass object }
    requires code { PlusPasses object }
    ensures accepted { IfOk result (λ settled. model.Passes object settled) }
    ensures code { IfOk result PlusPasses }
    ensures table { IfOk result (λ settled. model.HasAssemblersTable object settled) }
    ensures greatest { IfOk result (λ settled. model.IsGreatest object settled) }
    ensures unchanged { IfErr result (λ e. e.0 ≡ object) }
    ensures refused { IfErr result (λ e. model.IsRefused object e.1) }
    ensures complete { IfErr result (λ e. model.IsComplete object e.1) }
{
    match table_of(alloc, object.parts()) {
        Ok(table) => match with_table(object, table) {
            Ok((settled, own)) => checked(alloc, settled, own),
            Err(object) => Err((object, PAST_LIMIT)),
        },
        Err(fault) => Err((object, fault)),
    }
}
