//! The law of error stops, as the contract of a function that does nothing.

ghost use Rattle.gw_stops.specs.Activations.{
  AbsentProcedureStops,
  CallOfAbsentStops,
  EmptyStackStops,
  FullStackHasNoRoom,
  FullStackStops,
  GetOfAbsentStops,
  JumpOutStops,
  SetOfAbsentStops,
  StuckActivationsHaveNoOutcome,
  UnsetValueStops,
};
ghost use Rattle.gw_stops.specs.Stops.{
  ArrivalWithoutValueHasNoStart,
  AssembleWhileOwningStops,
  ChoiceOfNoTargetStops,
  CopiesToNoTargetStop,
  DepartOfTooMuchStops,
  EnterAboveCapacityStops,
  IntervalWithoutValueStops,
  LeaveOfTooMuchStops,
  LoopByUnsetStops,
  MembersToNoTargetStop,
  MissingBlockStops,
  MoveToNoTargetStops,
  OperandWithoutValueStops,
  ReleaseOfAnothersStops,
  ReturnByUnsetStops,
  SeizeOfOnesOwnStops,
  TerminateWhileOwningStops,
};

/// The error stops are stuck: the job runs, and has no step, where its active transaction, at the
/// block that it tries (its next one; of two the first, or the second where the first refuses it),
/// would
/// - release what it doesn't own, seize what it owns, or be destroyed while it owns a facility;
/// - give back more units than are inside, or ask for more than a storage ever holds;
/// - go on, by itself or as one of the two ways of a TRANSFER BOTH, or send copies or members, to a
///   block that isn't there or to a GENERATE;
/// - ask for a parameter that isn't set: by an operand, also through PLUS code, at LOOP, at TRANSFER
///   in parameter mode, or by the interval of a GENERATE.
///
/// Where a GENERATE asks for one at the start, there is no start. PLUS code gets stuck where the
/// stack has too few values or no room, outside of its code, at a local or a procedure that isn't
/// there, and at a parameter that isn't set; and where it gets stuck, it has no outcome (ours:
/// docs/machine.md, "Where the rules have no case").
pub fn error_stops_are_stuck()
    ensures release { ReleaseOfAnothersStops }
    ensures seize { SeizeOfOnesOwnStops }
    ensures terminate { TerminateWhileOwningStops }
    ensures assemble { AssembleWhileOwningStops }
    ensures leave { LeaveOfTooMuchStops }
    ensures depart { DepartOfTooMuchStops }
    ensures enter { EnterAboveCapacityStops }
    ensures missing { MissingBlockStops }
    ensures moves { MoveToNoTargetStops }
    ensures choices { ChoiceOfNoTargetStops }
    ensures copies { CopiesToNoTargetStop }
    ensures members { MembersToNoTargetStop }
    ensures operands { OperandWithoutValueStops }
    ensures loops { LoopByUnsetStops }
    ensures returning { ReturnByUnsetStops }
    ensures interval { IntervalWithoutValueStops }
    ensures start { ArrivalWithoutValueHasNoStart }
    ensures stuck { StuckActivationsHaveNoOutcome }
    ensures empty { EmptyStackStops }
    ensures full { FullStackStops }
    ensures room { FullStackHasNoRoom }
    ensures outside { JumpOutStops }
    ensures absent { AbsentProcedureStops }
    ensures calls { CallOfAbsentStops }
    ensures gets { GetOfAbsentStops }
    ensures sets { SetOfAbsentStops }
    ensures unset { UnsetValueStops }
{}
