//! Operand values.

ghost use Rattle.std.specs.Prelude.{◌≡◌, ◌≤◌, ◌<◌, ◌%◌, None, IfSome};
ghost use Rattle.gw_num.specs.Generator as generator;
ghost use Rattle.gw_object.specs.BlockGrammar.{OperandFits};
ghost use Rattle.gw_object.specs.Grammar.{HasSpelling};
ghost use Rattle.gw_object.specs.declared.parts.Parts.{Parts};
ghost use Rattle.gw_rules.specs.KindsLaws.{OperandHolds};
ghost use Rattle.gw_rules.specs.Code.{asked_by_source};
ghost use Rattle.gw_rules.specs.Environment.{ReadTheSame};
ghost use Rattle.gw_rules.specs.PlusLaws.{HasSet};
ghost use Rattle.gw_rules.specs.Values as values;
ghost use Rattle.gw_rules.specs.Accepted.{Checked};
ghost use Rattle.gw_plus.specs.Reading as lent;
ghost use Rattle.gw_transactions.specs.Transactions.{Holds};
ghost use Rattle.gw_step.specs.Operands.{MayEvaluate};
ghost use Rattle.gw_machine.specs.View.{state_of};
ghost use Rattle.gw_machine.specs.Coherence.{IsOf};
ghost use Rattle.gw_machine.specs.Evaluating.{subject_of, parameters_for, IsReadable, CanEvaluate, environment_in, next_environment_in, EvaluatesSource, EvaluatesOperand};

use crate::machine::Machine;
use gw_members::Tx;
use gw_num::Stream;
use gw_object::{EntityAttribute, Numbered, Operand};
use gw_plus::{Env, eval};
use gw_rules::{PlusEnd, Verified, operand_value, source_of};
use gw_transactions::{Parameters, Transaction};

/// For whom operands are evaluated: the active transaction, or the next that is to arrive.
#[derive(Clone, Copy, PartialEq, Eq)]
pub struct Subject {
    /// Its number, from 1.
    pub number: u64,
    /// Its priority.
    pub priority: i32,
    /// Its mark time, in clock units.
    pub mark: i64,
    /// Its handle; none where it has yet to arrive, and no parameter of it is set.
    pub tx: Option<Tx>,
}

// STREAMS

/// A number below a bound drawn from a stream, and where the stream then is.
fn below_from(bound: u32, stream: Stream) -> (u32, Stream)
    requires { 0 < bound }
    ensures drawn { result.0 ≡ generator.next_after stream % bound }
    ensures stream { result.1 ≡ generator.next_after stream }
{
    let mut moved = stream;
    let drawn = moved.next() % bound;
    (drawn, moved)
}

/// A number from 0 on and below a bound, drawn from the stream of this number, from 1 to 16.
fn drawn_below(bound: u32, number: u8, streams: &mut [Stream; 16]) -> i64
    requires bound { 0 < bound }
    requires stream { (1 ≤ number) × (number ≤ 16) }
    ensures { values.drawn_below bound number streams.old ≡ (result, streams.new) }
{
    let place = number as usize - 1;
    let (drawn, stream) = below_from(bound, streams[place]);
    streams[place] = stream;
    i64::from(drawn)
}

/// Thousandths, from 0 to 999, drawn from the stream of this number, from 1 to 16.
pub fn drawn_thousandths(number: u8, streams: &mut [Stream; 16]) -> i64
    requires { (1 ≤ number) × (number ≤ 16) }
    ensures { values.drawn_thousandths number streams.old ≡ (result, streams.new) }
{
    drawn_below(1000, number, streams)
}

/// Below what a draw for an operand is: it is in millionths for the value of a function, else in thousandths.
fn draws_below(operand: Operand) -> u32
    ensures bound { result ≡ values.draws_below operand }
    ensures some { 0 < result }
{
    match operand {
        Operand::OfEntity(
            Numbered {
                attribute: EntityAttribute::FunctionValue,
                ..
            },
        ) => 1_000_000,
        _ => 1000,
    }
}

// OPERANDS

/// The active transaction as one for whom operands are evaluated.
pub fn active_subject(tx: Tx, transaction: Transaction) -> Subject
    ensures { result ≡ subject_of tx transaction }
{
    Subject {
        number: tx.number,
        priority: transaction.priority,
        mark: transaction.mark,
        tx: Some(tx),
    }
}

impl Machine {
    /// The next transaction that is to arrive, with this priority: it enters the model now.
    pub fn next_subject(&self, priority: i32) -> Subject
        requires { IsReadable self.now }
        ensures next { environment_in result self.now ≡ next_environment_in priority self.now }
        ensures can { CanEvaluate self.now result }
    {
        Subject {
            number: self.transactions.next_number(),
            priority,
            mark: self.clock,
            tx: None,
        }
    }

    /// The parameters of a subject.
    fn parameters_for(&self, tx: Option<Tx>) -> &Parameters
        requires { IfSome tx (Holds self.now.transactions) }
        ensures { result.now.values ≡ parameters_for tx (state_of self.now) }
    {
        match tx {
            Some(tx) => self.transactions.parameters(tx),
            None => self.transactions.no_parameters(),
        }
    }

    /// What operands and procedures read, for a subject.
    fn env(&self, subject: Subject) -> Env<'_>
        requires { CanEvaluate self.now subject }
        ensures same { ReadTheSame (lent.environment_of result) (environment_in subject self.now) }
        ensures own { (p : Parts) → IsOf p self.now → lent.IsOf p result }
    {
        Env {
            number: subject.number,
            priority: subject.priority,
            mark: subject.mark,
            parameters: self.parameters_for(subject.tx),
            clock: self.clock,
            count: self.count,
            facilities: &self.entities.facilities,
            storages: &self.entities.storages,
            queues: &self.entities.queues,
            switches: &self.entities.switches,
            savevalues: &self.entities.savevalues,
            tables: &self.entities.tables,
            chains: &self.chains,
            entries: &self.entries,
            here: self.transactions.here_by_block(),
        }
    }

    /// The value of a source, where draws are below a bound, evaluated for a subject with these streams, or how its
    /// evaluation ends.
    fn source_value(
        &self,
        verified: &Verified,
        subject: Subject,
        bound: u32,
        source: Operand,
        streams: &mut [Stream; 16],
    ) -> Result<i64, PlusEnd>
        requires spelled { HasSpelling verified.now }
        requires checked { Checked verified.now }
        requires own { IsOf verified.now self.now }
        requires subject { CanEvaluate self.now subject }
        requires bound { 0 < bound }
        requires holds { OperandHolds verified.now source }
        requires fits { OperandFits source }
        requires set { HasSet (environment_in subject self.now)
            (asked_by_source verified.now source) }
        ensures { EvaluatesSource verified.now subject bound source self.now result streams.old streams.new }
    {
        match source {
            Operand::Random(stream) => Ok(drawn_below(bound, stream, streams)),
            Operand::Procedure(procedure) => eval(verified, procedure, &self.env(subject)),
            _ => Ok(self.env(subject).kept_value(source)),
        }
    }

    /// The value of an operand, evaluated for a subject with these streams, or how its evaluation ends.
    #[inline(always)]
    pub fn value(
        &self,
        verified: &Verified,
        subject: Subject,
        operand: Operand,
        streams: &mut [Stream; 16],
    ) -> Result<i64, PlusEnd>
        requires own { IsOf verified.now self.now }
        requires subject { CanEvaluate self.now subject }
        requires operand { MayEvaluate verified.now (environment_in subject self.now) operand }
        ensures { EvaluatesOperand verified.now subject operand self.now result streams.old streams.new }
    {
        match operand {
            Operand::Constant(number) => Ok(number),
            _ => self.value_by_source(verified, subject, operand, streams),
        }
    }

    /// The value of an operand, by what it comes from, evaluated for a subject with these streams, or how its evaluation
    /// ends.
    #[inline(never)]
    fn value_by_source(
        &self,
        verified: &Verified,
        subject: Subject,
        operand: Operand,
        streams: &mut [Stream; 16],
    ) -> Result<i64, PlusEnd>
        requires own { IsOf verified.now self.now }
        requires subject { CanEvaluate self.now subject }
        requires operand { MayEvaluate verified.now (environment_in subject self.now) operand }
        ensures { EvaluatesOperand verified.now subject operand self.now result streams.old streams.new }
    {
        let entities = verified.object().parts().entities.as_slice();
        let source = source_of(entities, operand);
        let value = self.source_value(verified, subject, draws_below(operand), source, streams)?;
        Ok(operand_value(entities, operand, value))
    }
}
