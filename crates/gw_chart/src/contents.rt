//! What is in the entities of a model.

ghost use Rattle.std.specs.Prelude.{◌≡◌, ◌<◌, length, IfOk};
ghost use Rattle.gw_chart.specs.Contents.{content_of, contents_from, count_value};

use gw_object::{Items, Kind, Memory};
use gw_scan::Sim;
use std::alloc::Global;

/// A count as a number.
fn counted(count: u64) -> i64
    ensures { result ≡ count_value count }
{
    count.min(i64::MAX as u64) as i64
}

/// What is in an entity, by its number from 0: 1 in a facility that is owned or a switch that is set, the units in a storage,
/// those that wait in a queue, the members of a user chain, the value of a savevalue, and 0 in any other.
pub(crate) fn content_of(sim: &Sim, number: u16, kind: &Kind) -> i64
    requires { number < length sim.now.job.parts.entities }
    ensures { result ≡ content_of kind.now sim.now.state number }
{
    match kind {
        Kind::Facility => i64::from(sim.facilities().get(number).owner.is_some()),
        Kind::Storage(_) => counted(sim.storages().get(number).contents.content),
        Kind::Queue => counted(sim.queues().get(number).content),
        Kind::Switch(_) => i64::from(sim.switches().get(number)),
        Kind::Chain => counted(sim.members(number) as u64),
        Kind::Savevalue(_) => sim.savevalues().get(number),
        _ => 0,
    }
}

/// What is in each entity, by its number.
#[tactic(auto, unfolding(crate::specs::Contents::contents_from))]
pub(crate) fn contents(alloc: Global, sim: &Sim) -> Result<Items<i64>, Memory>
    ensures { IfOk result (λ row. row ≡ contents_from sim.now.state 0 sim.now.job.parts.entities) }
{
    let entities = sim
        .spec()
        .verified_object()
        .object()
        .parts()
        .entities
        .as_slice();
    let mut row = Vec::new(alloc);
    for i in 0..entities.len() {
        row.push(content_of(sim, i as u16, &entities[i].kind))?;
    }
    Ok(Items::from_vec(row))
}
