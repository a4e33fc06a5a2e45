//! Drawn times and moments.

ghost use Rattle.std.specs.Prelude.{◌≡◌, ◌+◌, pos, Ok};
ghost use Rattle.gw_num.specs.Generator as generator;
ghost use Rattle.gw_step.specs.Operands.{MayDraw};
ghost use Rattle.gw_step.specs.Times as model;
ghost use Rattle.gw_machine.specs.Coherence.{IsOf};
ghost use Rattle.gw_machine.specs.Evaluating.{CanEvaluate, outcome_of, environment_in, EvaluatesTime, EvaluatesMoment};
ghost use Rattle.gw_machine.specs.Spans.{DrawsMoment};

use crate::ends::{end_by, end_by_fault};
use crate::machine::Machine;
use crate::values::Subject;
use gw_num::{NumFault, Stream, add};
use gw_object::Spread;
use gw_plus::ended_by;
use gw_rules::{PlusEnd, Verified};
use gw_step::End;

/// Times to draw from, each as likely as the others: from a least one to twice a half-range more, in clock units.
#[derive(Clone, Copy, PartialEq, Eq)]
pub struct Span {
    /// The least time, in clock units.
    pub least: u32,
    /// Half of how far the times reach from it, in clock units; where it is 0 nothing is drawn.
    pub half: u32,
}

/// A time of a span drawn from a stream, in clock units, and where the stream then is.
fn time_within(span: Span, stream: Stream) -> (i64, Stream)
    ensures { generator.drawn_time (pos (span.least + span.half)) (pos span.half) stream ≡ Ok result }
{
    let least = i64::from(span.least);
    if span.half == 0 {
        return (least, stream);
    }
    let mut moved = stream;
    let drawn = i64::from(moved.next()) % (2 * i64::from(span.half) + 1);
    (least + drawn, moved)
}

/// The clock so much later, in clock units. A time below 0, and a moment that an i64 can't hold, are named ends.
fn moment_after(clock: i64, time: i64) -> Result<i64, End>
    ensures { outcome_of result ≡ model.moment_after clock time }
{
    if time < 0 {
        return Err(End::NegativeTime);
    }
    match add(clock, time) {
        Ok(moment) => Ok(moment),
        Err(fault) => Err(end_by_fault(fault)),
    }
}

/// A time of this mean and half-range, drawn from a stream, and where the stream then is.
fn spread_from(stream: Stream, mean: i64, half: i64) -> Result<(i64, Stream), NumFault>
    ensures { result ≡ generator.drawn_time mean half stream }
{
    let mut drawn = stream;
    match drawn.spread(mean, half) {
        Ok(time) => Ok((time, drawn)),
        Err(fault) => Err(fault),
    }
}

impl Machine {
    /// A time, in clock units, whose mean and half-range are evaluated for a subject; it is drawn from the first of these
    /// streams.
    #[inline(always)]
    fn drawn_time(
        &self,
        verified: &Verified,
        subject: Subject,
        spread: Spread,
        streams: &mut [Stream; 16],
    ) -> Result<i64, PlusEnd>
        requires own { IsOf verified.now self.now }
        requires subject { CanEvaluate self.now subject }
        requires spread { MayDraw verified.now (environment_in subject self.now) spread }
        ensures { EvaluatesTime verified.now subject spread self.now result streams.old streams.new }
    {
        let mean = self.value(verified, subject, spread.mean, streams)?;
        let half = self.value(verified, subject, spread.half, streams)?;
        match spread_from(streams[0], mean, half) {
            Ok((time, stream)) => {
                streams[0] = stream;
                Ok(time)
            }
            Err(fault) => Err(ended_by(fault)),
        }
    }

    /// The moment that lies a time of a span after the clock, in clock units, and where the first stream is after its draw;
    /// or the named end of a moment that an i64 can't hold.
    #[inline(always)]
    pub fn moment_within(&self, span: Span) -> Result<(i64, Stream), End>
        ensures { DrawsMoment result span self.now.clock self.now.streams }
    {
        let (time, stream) = time_within(span, self.streams[0]);
        match add(self.clock, time) {
            Ok(moment) => Ok((moment, stream)),
            Err(fault) => Err(end_by_fault(fault)),
        }
    }

    /// The moment that lies a drawn time after the clock, in clock units.
    #[inline(always)]
    pub fn drawn_moment(
        &self,
        verified: &Verified,
        subject: Subject,
        spread: Spread,
        streams: &mut [Stream; 16],
    ) -> Result<i64, End>
        requires own { IsOf verified.now self.now }
        requires subject { CanEvaluate self.now subject }
        requires spread { MayDraw verified.now (environment_in subject self.now) spread }
        ensures { EvaluatesMoment verified.now subject spread self.now result streams.old streams.new }
    {
        match self.drawn_time(verified, subject, spread, streams) {
            Ok(time) => moment_after(self.clock, time),
            Err(end) => Err(end_by(end)),
        }
    }
}
