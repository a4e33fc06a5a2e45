//! The laws of steps, each as the contract of a function that does nothing.

ghost use Rattle.gw_step.specs.Laws.{
  AtMostOneStep,
  OneLoneState,
  StepsAreCounted,
  EndsAreFinal,
  EndsLeaveTheRest,
  AllComeToRest,
  SlicesReachTheSame,
  SlicesAreAlone,
  WaitersAloneEnd,
};
ghost use Rattle.gw_step.specs.Safety.{
  CheckedObjectsStart,
  StartIsWellTyped,
  StepsKeepTypes,
  TurnsKeepTypes,
  WellTypedStatesStep,
  ParametersSuffice,
  IntervalsAskForNothing,
  BlocksAreServed,
  ReachedStatesAreWellTyped,
  NoJobIsStuck,
  AllJobsEnd,
  StoragesKeepTheirCapacity,
  RetryingResideOnce,
  StoragesLoseNoUnit,
  RestingStatesAreWoken,
};
ghost use Rattle.gw_step.specs.Moments.{EntriesArePaid, EntriesAreWithinWeight, StatesWeighLittle, StepsAreWithinWeight, MomentsPass};

/// Each state has at most one step, and so a job has at most one state after so many steps.
#[tactic(auto, using(crate::proofs::Slices::one_step, crate::proofs::Slices::one_state))]
pub fn steps_are_determined()
    ensures steps { AtMostOneStep }
    ensures states { OneLoneState }
{}

/// A step is one more in the count of steps, an ended job has none, and each named end but Done and Budget leaves the
/// rest of the state as it was before the step.
pub fn ends_leave_the_rest()
    ensures counted { StepsAreCounted }
    ensures last { EndsAreFinal }
    ensures rest { EndsLeaveTheRest }
{}

/// Cutting a run into slices in any way reaches the same state, which is that of the lone run.
#[tactic(auto, using(crate::proofs::Slices::slices_same, crate::proofs::Slices::slices_alone))]
pub fn slices_reach_the_same()
    ensures same { SlicesReachTheSame }
    ensures alone { SlicesAreAlone }
{}

/// Each job that has a start comes to a named end within its budget, or is stuck at an error stop.
#[tactic(auto, using(crate::proofs::Rests::all_come_to_rest))]
pub fn all_jobs_come_to_rest()
    ensures { AllComeToRest }
{}

/// Typed states never get stuck: a checked object has a start state, which is well-typed, each step of a well-typed state leads
/// to a well-typed state, and a well-typed state that runs has a step (ours: docs/machine.md, "Well-typed states").
#[tactic(auto, using(crate::proofs::Safe::checked_objects_start, crate::proofs::Safe::start_is_well_typed, crate::proofs::Safe::steps_keep_types, crate::proofs::Safe::well_typed_states_step))]
pub fn typed_states_never_get_stuck()
    ensures starts { CheckedObjectsStart }
    ensures start { StartIsWellTyped }
    ensures kept { StepsKeepTypes }
    ensures steps { WellTypedStatesStep }
{}

/// In a well-typed state the active transaction has all parameters that its next block asks for, also through procedures,
/// variables and functions; and the interval of a GENERATE asks for none (ours: docs/machine.md, "Well-typed states").
pub fn parameters_suffice()
    ensures active { ParametersSuffice }
    ensures arrivals { IntervalsAskForNothing }
{}

/// In a well-typed state the active transaction has all that its next block asks for: it owns what it releases, not what it
/// seizes, and nothing where it ends; it has the units that it gives back, and asks for no more than there are; the parameter
/// is set in which it counts or finds its way back; and wherever the block leads, there is a block that may be entered (ours:
/// docs/machine.md, "Well-typed states").
#[tactic(auto, using(crate::proofs::Served::blocks_are_served))]
pub fn blocks_are_served()
    ensures { BlocksAreServed }
{}

/// No job of a checked object meets an error stop: each state that it reaches is well-typed and isn't stuck, no storage
/// holds more than its capacity, and within its budget the job comes to a named end.
#[tactic(auto, using(crate::proofs::Safe::reached_states_are_well_typed, crate::proofs::Safe::no_job_is_stuck, crate::proofs::Safe::all_jobs_end, crate::proofs::Safe::storages_keep_their_capacity))]
pub fn no_job_meets_an_error_stop()
    ensures typed { ReachedStatesAreWellTyped }
    ensures never { NoJobIsStuck }
    ensures ends { AllJobsEnd }
    ensures within { StoragesKeepTheirCapacity }
{}

/// Who waits for a condition waits there and nowhere else, in each state that a job of a checked object reaches; and where all
/// that are live wait, for a condition, a facility or a storage, the job ends by NoMoreEvents.
#[tactic(auto, using(crate::proofs::Safe::retrying_reside_once, crate::proofs::Steps::waiters_alone_end))]
pub fn waiters_are_not_forgotten()
    ensures once { RetryingResideOnce }
    ensures ends { WaitersAloneEnd }
{}

/// In each state that a job of an accepted object reaches, the units that entered a storage are those that left it and those
/// inside; and where nobody is active, the retry list was woken since the last entry of a block (ours: docs/machine.md).
#[tactic(auto, using(crate::proofs::Moment::storages_lose_no_unit, crate::proofs::Moment::resting_states_are_woken))]
pub fn reached_states_keep_their_bounds()
    ensures units { StoragesLoseNoUnit }
    ensures woken { RestingStatesAreWoken }
{}

/// The moment bound: between two states of one clock moment that a job of an accepted object reaches, its block entries, by
/// whomever they are made, are at most the first state's certified weight, and what that falls by pays for them (ours:
/// docs/weights.md).
pub fn entries_are_within_weight()
    ensures paid { EntriesArePaid }
    ensures within { EntriesAreWithinWeight }
{}

/// No job of an accepted object hangs in a clock moment: it makes at most so many steps in it as its certified weight
/// allows, and then the clock moves or the job ends (ours: docs/weights.md).
#[tactic(auto, using(crate::proofs::Moment::moments_pass))]
pub fn moments_pass()
    ensures within { StepsAreWithinWeight }
    ensures over { MomentsPass }
{}

/// Who has two next blocks turns to either of them, and the state stays well-typed: so what is said of the active
/// transaction and its one next block is said of each of the two (ours: docs/machine.md, "Well-typed states").
#[tactic(auto, using(crate::proofs::Safe::turns_keep_types))]
pub fn turns_keep_types()
    ensures { TurnsKeepTypes }
{}

/// A state in which at most 65,536 transactions are live, and no parameter is above a number, weighs no more than that
/// number allows (ours: docs/weights.md).
pub fn states_weigh_little()
    ensures { StatesWeighLittle }
{}
