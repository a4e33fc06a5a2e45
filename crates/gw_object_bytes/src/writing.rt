//! Writing an object: each function puts bytes into a receiver, which keeps or counts them.

ghost use Rattle.std.specs.Prelude.{◌≡◌, IfOk};
ghost use Rattle.gw_fields.specs.Fields.{Leaves};
ghost use Rattle.gw_field_bytes.specs.Receivers.{Puts};
ghost use Rattle.gw_object.specs.Grammar.{head, spelling};
ghost use Rattle.gw_object_bytes.specs.Tables.{lists_spelling, tables_spelling};

use crate::Memory;
use crate::certificate::put_certificate;
use gw_field_bytes::{Receiver, Room, Spelled, put_elements, put_listed};
use gw_object::{Object, Parts};
use std::alloc::Global;

/// The letters `GPSO` and the version.
#[tactic(auto, using(gw_field_bytes::proofs::Receiving::joining), unfolding(gw_object::specs::Grammar::head))]
fn put_head<R: Receiver>(to: &mut R, version: u16) -> Result<(), R::Refusal>
    ensures { Puts R.content to.old to.new (head.spell (tt, version)) result }
{
    to.put_bytes(b"GPSO")?;
    version.put(to)
}

/// The return rows, and what stands for each block and each user chain: its row of the state table, and its weight, a block's
/// with its slope.
#[tactic(auto, using(gw_field_bytes::proofs::Receiving::joining), unfolding(gw_object::specs::Grammar::tables))]
fn put_tables<R: Receiver>(to: &mut R, parts: &Parts) -> Result<(), R::Refusal>
    ensures { Puts R.content to.old to.new (tables_spelling parts.now) result }
{
    put_listed(to, parts.returns.as_slice())?;
    put_elements(to, parts.states.as_slice())?;
    put_elements(to, parts.chain_states.as_slice())?;
    let weights = parts.weights.as_slice();
    put_certificate(to, parts.version, weights, parts.slopes.as_slice())?;
    put_elements(to, parts.chain_weights.as_slice())
}

/// The entities, procedures and blocks, and what stands behind them.
#[tactic(auto, using(gw_field_bytes::proofs::Receiving::joining))]
fn put_lists<R: Receiver>(to: &mut R, parts: &Parts) -> Result<(), R::Refusal>
    ensures { Puts R.content to.old to.new (lists_spelling parts.now) result }
{
    put_listed(to, parts.entities.as_slice())?;
    put_listed(to, parts.procedures.as_slice())?;
    put_listed(to, parts.blocks.as_slice())?;
    put_tables(to, parts)
}

/// The bytes that spell parts.
#[tactic(auto, using(gw_field_bytes::proofs::Receiving::joining), unfolding(gw_object::specs::Grammar::spelling, gw_object::specs::Grammar::object))]
fn put_parts<R: Receiver>(to: &mut R, parts: &Parts) -> Result<(), R::Refusal>
    ensures { Puts R.content to.old to.new (spelling parts.now) result }
{
    put_head(to, parts.version)?;
    put_listed(to, parts.seeds.as_slice())?;
    parts.count.put(to)?;
    put_lists(to, parts)
}

/// How many bytes of a room are left behind those that spell parts; `None` where they don't fit into it.
#[tactic(auto, using(gw_field_bytes::proofs::Receiving::leaves))]
pub fn room_after_parts(parts: &Parts, room: usize) -> Option<usize>
    ensures { Leaves (spelling parts.now) room result }
{
    let mut behind = Room { left: Some(room) };
    match put_parts(&mut behind, parts) {
        Ok(()) => behind.left,
        Err(never) => match never {},
    }
}

/// The one spelling of an object.
#[tactic(auto, using(gw_field_bytes::proofs::Receiving::keeps))]
pub fn write(alloc: Global, object: &Object) -> Result<Vec<u8>, Memory>
    ensures { IfOk result (λ bytes. bytes.items ≡ spelling object.now) }
{
    let mut out = Vec::new(alloc);
    put_parts(&mut out, object.parts())?;
    Ok(out)
}
