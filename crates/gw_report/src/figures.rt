//! The figures of a state: what its report tells, as exact numbers.

ghost use Rattle.std.specs.Prelude.{◌≡◌, ◌<◌, ◌≤◌, ◌+◌, length, map, IfOk};
ghost use Rattle.gw_report.specs.Figures as model;
ghost use Rattle.gw_report.specs.Figures.{figures_of, figures_of_entity, figures_of_table, block_figures, entity_figures, entity_classes};

use crate::entries::{BlockFigures, EntityFigures, TableFigures};
use gw_object::Memory;
use gw_scan::{Sim, Status};
use std::alloc::Global;
use std::marker::Model;

/// The figures of a state: how the job stands, its clock, steps, entries and count, and those of each block and of each entity.
/// All are exact: counts, and sums of content times time, as they lie in the state. Averages are made of them where they are told.
#[derive(Drop)]
pub struct Figures {
    status: Status,
    clock: i64,
    steps: u64,
    entries: u64,
    count: i64,
    blocks: Vec<BlockFigures>,
    entities: Vec<EntityFigures>,
    classes: Vec<Vec<u64>>,
}

impl Model for Figures {
    ghost use Rattle.std.specs.Prelude.{map};
    ghost use Rattle.gw_report.specs.Figures.{Figures};

    ghost Value = { Figures };

    ghost view = { λ f. record {
      status = f.status;
      clock = f.clock;
      steps = f.steps;
      entries = f.entries;
      count = f.count;
      blocks = f.blocks.items;
      entities = f.entities.items;
      classes = map (λ c. c.items) f.classes.items;
    } };
}

/// The figures of each block, in order.
fn blocks_of(alloc: Global, sim: &Sim) -> Result<Vec<BlockFigures>, Memory>
    ensures { IfOk result (λ blocks. blocks.items ≡ block_figures sim.now) }
{
    let number = sim
        .spec()
        .verified_object()
        .object()
        .parts()
        .blocks
        .as_slice()
        .len();
    let mut blocks = Vec::with_capacity(alloc, number)?;
    for i in 0..number {
        let block = (i + 1) as u16;
        blocks.push(BlockFigures {
            entries: sim.entries_at(block),
            here: sim.here(block),
        })?;
    }
    Ok(blocks)
}

/// The figures of the table of a number.
fn table_of(sim: &Sim, number: u16) -> TableFigures
    requires { number < length sim.now.job.parts.entities }
    ensures { result ≡ figures_of_table sim.now.state number }
{
    let table = sim.tables().get(number);
    TableFigures {
        count: table.count(),
        sum: table.sum(),
    }
}

/// The figures of the entity of a number.
fn entity_of(sim: &Sim, number: u16) -> EntityFigures
    requires { number < length sim.now.job.parts.entities }
    ensures { result ≡ figures_of_entity sim.now.state number }
{
    EntityFigures {
        facility: sim.facilities().get(number),
        storage: sim.storages().get(number),
        queue: sim.queues().get(number),
        switch: sim.switches().get(number),
        savevalue: sim.savevalues().get(number),
        table: table_of(sim, number),
        waiting: sim.waiting_len(number),
        members: sim.members(number),
    }
}

/// The figures of each entity, in order.
fn entities_of(alloc: Global, sim: &Sim) -> Result<Vec<EntityFigures>, Memory>
    ensures { IfOk result (λ entities. entities.items ≡ entity_figures sim.now) }
{
    let number = sim
        .spec()
        .verified_object()
        .object()
        .parts()
        .entities
        .as_slice()
        .len();
    let mut entities = Vec::with_capacity(alloc, number)?;
    for i in 0..number {
        entities.push(entity_of(sim, i as u16))?;
    }
    Ok(entities)
}

/// How many values each class of each table has, in order; of another entity there is none.
fn classes_of_tables(alloc: Global, sim: &Sim) -> Result<Vec<Vec<u64>>, Memory>
    ensures { IfOk result (λ classes. map (λ c. c.items) classes.items ≡ entity_classes sim.now) }
{
    let number = sim
        .spec()
        .verified_object()
        .object()
        .parts()
        .entities
        .as_slice()
        .len();
    let mut classes = Vec::with_capacity(alloc, number)?;
    for i in 0..number {
        let table = sim.tables().get(i as u16);
        classes.push(Vec::from_slice(alloc, table.classes())?)?;
    }
    Ok(classes)
}

impl Figures {
    /// The figures of a job as it stands. It takes the memory that they need, and changes nothing.
    pub fn of(alloc: Global, sim: &Sim) -> Result<Figures, Memory>
        ensures { IfOk result (λ figures. figures ≡ figures_of sim.now) }
    {
        let blocks = blocks_of(alloc, sim)?;
        let entities = entities_of(alloc, sim)?;
        let classes = classes_of_tables(alloc, sim)?;
        Ok(Figures {
            status: sim.status(),
            clock: sim.clock(),
            steps: sim.steps(),
            entries: sim.entries(),
            count: sim.count(),
            blocks,
            entities,
            classes,
        })
    }

    /// How the job stands.
    pub fn status(&self) -> Status
        ensures { result ≡ self.now.status }
    {
        self.status
    }

    /// The clock, in clock units.
    pub fn clock(&self) -> i64
        ensures { result ≡ self.now.clock }
    {
        self.clock
    }

    /// The steps made.
    pub fn steps(&self) -> u64
        ensures { result ≡ self.now.steps }
    {
        self.steps
    }

    /// The entries of all blocks.
    pub fn entries(&self) -> u64
        ensures { result ≡ self.now.entries }
    {
        self.entries
    }

    /// The termination count: what is left to count down.
    pub fn count(&self) -> i64
        ensures { result ≡ self.now.count }
    {
        self.count
    }

    /// Those of the block at a place, from 0; of one where nothing came to pass where there is none.
    pub fn block(&self, place: usize) -> BlockFigures
        ensures { result ≡ model.block_at place self.now }
    {
        match self.blocks.get(place) {
            Some(block) => *block,
            None => BlockFigures::none(),
        }
    }

    /// Those of the entity of a number, from 0; of one to which nothing happened where there is none.
    pub fn entity(&self, number: usize) -> EntityFigures
        ensures { result ≡ model.entity_at number self.now }
    {
        match self.entities.get(number) {
            Some(entity) => *entity,
            None => EntityFigures::none(),
        }
    }

    /// How many values each class of the table of a number has, from 0; none where it is no table.
    pub fn classes(&self, number: usize) -> &[u64]
        ensures { result.now ≡ model.classes_at number self.now }
    {
        match self.classes.get(number) {
            Some(classes) => classes.as_slice(),
            None => &[],
        }
    }
}
