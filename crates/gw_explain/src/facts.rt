//! What is known at the place of a fault, in words: of a transaction there, or of a round on which no time passes.

use crate::known::{Flow, put_at};
use crate::lines::Text;
use crate::rounds::{Origin, put_round};
use crate::slopes::put_slope;
use gw_kinds::check_kinds;
use gw_names::{Known, Ledger, known_names};
use gw_object::{Fault, Memory, Object, Parts, codes};
use gw_object_bytes::{build, read};
use gw_pieces::parts_of;
use gw_rules::flow_codes::{OVER_CAPACITY, UNSET_PARAM};
use gw_rules::weights_codes::{CHAIN_WEIGHT, SLOPE_PARAM, WEIGHT_EDGE};
use gw_settle::{Written, table_of};
use gw_text::Model;
use indexmap::IndexMap;
use std::alloc::Global;
use std::mem;

/// Whether a fault is one of flow.
fn is_of_flow(fault: Fault) -> bool {
    UNSET_PARAM <= fault.code && fault.code <= OVER_CAPACITY
}

/// Whether a fault is one of weights that a round may bring.
fn is_of_rounds(fault: Fault) -> bool {
    fault.code == WEIGHT_EDGE || fault.code == CHAIN_WEIGHT
}

/// Whether something is known of a fault.
fn is_known(fault: Fault) -> bool {
    is_of_flow(fault) || is_of_rounds(fault) || fault.code == SLOPE_PARAM
}

/// What is known at the place of a fault.
fn put_facts(
    alloc: Global,
    out: &mut Vec<u8>,
    flow: Flow<'_>,
    text: &Text<'_>,
    origin: Origin,
    fault: Fault,
) -> Result<(), Memory> {
    if is_of_flow(fault) {
        put_at(alloc, out, flow, fault)
    } else if is_of_rounds(fault) {
        put_round(alloc, out, flow, text, origin, fault.place)
    } else {
        put_slope(out, flow, fault.place)
    }
}

/// Puts a state table in the place of that of parts.
fn put_table(parts: &mut Parts, table: Written) {
    let Written {
        returns,
        states,
        chain_states,
    } = table;
    parts.returns = returns;
    parts.states = states;
    parts.chain_states = chain_states;
}

/// The parts that a model becomes, with the assembler's state table, if there is one.
fn settled_parts(alloc: Global, object: Object) -> Result<Option<Parts>, Memory> {
    if check_kinds(&object).is_err() {
        drop(object);
        return Ok(None);
    }
    match table_of(alloc, object.parts()) {
        Ok(table) => {
            let mut parts = object.into_parts();
            put_table(&mut parts, table);
            Ok(Some(parts))
        }
        Err(refusal) => {
            drop(object);
            none_unless_memory(refusal)
        }
    }
}

/// Nothing more is said where something else is refused, unless memory ran out.
fn none_unless_memory(fault: Fault) -> Result<Option<Parts>, Memory> {
    if fault.code == codes::MEMORY {
        Err(Memory)
    } else {
        Ok(None)
    }
}

/// The parameters of what is known of names; the rest is let go.
fn taken_parameters(alloc: Global, mut known: Known) -> IndexMap<String, u8> {
    let parameters = mem::replace(&mut known.parameters, IndexMap::new(alloc));
    drop(known);
    parameters
}

/// The numbers of the parameters that have names.
fn parameter_names(alloc: Global, model: &Model) -> Result<IndexMap<String, u8>, Memory> {
    match known_names(alloc, model.statements.as_slice(), &mut Ledger::new()) {
        Ok(known) => Ok(taken_parameters(alloc, known)),
        Err(_) => Err(Memory),
    }
}

/// The same, where these are the parts that it becomes, without a state table.
fn settled_of(alloc: Global, parts: Parts) -> Result<Option<Parts>, Memory> {
    match build(parts).ok() {
        Some(object) => settled_parts(alloc, object),
        None => Ok(None),
    }
}

/// The parts that a model becomes, with the assembler's state table, if there are such.
fn parts_in_model(alloc: Global, model: &Model) -> Result<Option<Parts>, Memory> {
    match parts_of(alloc, model) {
        Ok(parts) => settled_of(alloc, parts),
        Err(refusal) => none_unless_memory(refusal),
    }
}

/// What is known of these parts, where a model gives names to parameters.
fn put_named(
    alloc: Global,
    out: &mut Vec<u8>,
    model: &Model,
    text: &Text<'_>,
    parts: &Parts,
    fault: Fault,
) -> Result<(), Memory> {
    let names = parameter_names(alloc, model)?;
    let flow = Flow {
        parts,
        names: &names,
    };
    let put = put_facts(alloc, out, flow, text, Origin::Model, fault);
    drop(names);
    put
}

/// What is known at the place of a fault of flow or of weights in a model with these lines; of another fault nothing.
pub(crate) fn known_in_model(
    alloc: Global,
    model: &Model,
    text: &Text<'_>,
    fault: Fault,
) -> Result<Vec<u8>, Memory> {
    let mut out = Vec::new(alloc);
    if !is_known(fault) {
        return Ok(out);
    }
    if let Some(parts) = parts_in_model(alloc, model)? {
        let put = put_named(alloc, &mut out, model, text, &parts, fault);
        drop(parts);
        put?;
    }
    Ok(out)
}

/// What is known in an object, by its own state table.
fn put_by_object(
    alloc: Global,
    out: &mut Vec<u8>,
    parts: &Parts,
    fault: Fault,
) -> Result<(), Memory> {
    let names = IndexMap::new(alloc);
    let flow = Flow {
        parts,
        names: &names,
    };
    let none = Text {
        lines: &[],
        blocks: &[],
    };
    let put = put_facts(alloc, out, flow, &none, Origin::Object, fault);
    drop(names);
    put
}

/// What is known at the place of a fault of flow or of weights in the object that bytes spell; parameters have no names there.
pub(crate) fn known_in_object(
    alloc: Global,
    input: &[u8],
    fault: Fault,
) -> Result<Vec<u8>, Memory> {
    let mut out = Vec::new(alloc);
    if !is_known(fault) {
        return Ok(out);
    }
    match read(alloc, input) {
        Ok(object) => {
            let put = put_by_object(alloc, &mut out, object.parts(), fault);
            drop(object);
            put?
        }
        Err(refusal) => {
            none_unless_memory(refusal)?;
        }
    }
    Ok(out)
}
