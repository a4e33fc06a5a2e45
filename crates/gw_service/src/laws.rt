//! The laws of the service machine, each as the contract of a function that does nothing.

ghost use Rattle.gw_service.specs.Isolation.{FrontsAreToldFirst, OneCallIsPrivate, OthersLeaveMyRows, SameCallSameReply, SameCallsSameReplies};
ghost use Rattle.gw_service.specs.Keeping.{
  NextIsReplayed,
  EveryJournalReplays,
  NextListsReady,
  EveryServiceListsReady,
  NextIsWithinLimits,
  EveryServiceIsWithinLimits,
  OutFollowsCalls,
  StepsFollowReturns,
  StepsNeverFall,
  NextIsReached,
  EveryServiceIsReached,
  NextIsKept,
  EveryServiceIsKept,
  EventsMayCome,
  EveryJournalIsHistory,
  PassesLeadToOwnRows,
  RefusalsChangeNothing,
  SlotsAreKept,
};

/// User isolation: what a user is told, and what becomes of the user's rows, follows from those rows and from what each call is
/// to the user. So where two services agree for a user, the same calls get the same replies and leave them agreeing, and calls of
/// others leave the user's rows as they are. Excepted are a refusal by what all users share (61, 62, 63) and the slot of a new
/// pass. Where both services refuse a call of the user so, and alike, the two laws of agreeing services speak of it and of what
/// follows; where only one of them does, they speak of the calls before it (ours: docs/service.md).
#[tactic(auto, using(crate::proofs::Private::private, crate::proofs::Private::others, crate::proofs::Alike::alike))]
pub fn users_are_isolated()
    ensures one { OneCallIsPrivate }
    ensures others { OthersLeaveMyRows }
    ensures same { SameCallSameReply }
    ensures all { SameCallsSameReplies }
    ensures fronts { FrontsAreToldFirst }
{}

/// After any list of calls the journal replays to the rows and the ready list, and each call keeps that.
#[tactic(auto, using(crate::proofs::Replays::next_replays, crate::proofs::Replays::all_replay))]
pub fn journals_replay()
    ensures one { NextIsReplayed }
    ensures all { EveryJournalReplays }
{}

/// After any list of calls the ready list has the slots of the rows that are ready, each once, and no other; each call keeps that.
#[tactic(auto, using(crate::proofs::Listing::next_lists_ready, crate::proofs::Listing::all_list_ready))]
pub fn ready_lists_are_right()
    ensures one { NextListsReady }
    ensures all { EveryServiceListsReady }
{}

/// After any list of calls there are at most 1,024 rows, at most 16 of a user run, and at most 2^20 places of the journal are
/// taken: one for each event, and one for the return of each row that is out. Each call keeps that.
pub fn calls_keep_limits()
    ensures one { NextIsWithinLimits }
    ensures all { EveryServiceIsWithinLimits }
{}

/// A take raises the rows that are out by one, a return lowers them by one, and no other call changes how many they are. A
/// return adds the steps that were made since the take, and no other call changes the steps given back: they never fall.
#[tactic(auto, using(crate::proofs::Totals::out_follows, crate::proofs::Totals::steps_follow, crate::proofs::Totals::steps_never_fall))]
pub fn totals_follow_calls()
    ensures out { OutFollowsCalls }
    ensures steps { StepsFollowReturns }
    ensures never { StepsNeverFall }
{}

/// After any list of sound calls the lone run of each row's job has a state after the row's steps, which is final exactly where
/// the row is ended, cancelled rows excepted; each call keeps that. A call is sound where a job that is submitted has a start,
/// and the lone run of the job of a task that is given back has as many steps as the task, at most 2^40 (a job's budget).
#[tactic(auto, using(crate::proofs::Reaching::next_reached, crate::proofs::Reaching::all_reached))]
pub fn rows_are_reached()
    ensures one { NextIsReached }
    ensures all { EveryServiceIsReached }
{}

/// After any list of sound calls all of this is so at once: the journal replays, and has no event that could not come, the ready
/// list has what is ready, the limits are kept, and the rows are reached. Each sound call keeps it.
pub fn services_are_kept()
    ensures one { NextIsKept }
    ensures all { EveryServiceIsKept }
{}

/// The event of a sound call may come: a take takes the first that is ready, a return is of a row that is out, with steps that
/// its job's lone run has, at least those at its take, and a cancel is of a row that is ready or out. So after any list of sound
/// calls the journal has no event that could not come.
#[tactic(auto, using(crate::proofs::History::events_may_come, crate::proofs::History::all_history))]
pub fn journals_tell_what_may_come()
    ensures events { EventsMayCome }
    ensures journals { EveryJournalIsHistory }
{}

/// Whatever is told or cancelled by a pass, it is the row in the pass's slot, which is the user's own and has the pass's job.
#[tactic(auto, using(crate::proofs::Passes::passes_lead_to_own_rows))]
pub fn passes_lead_to_own_rows()
    ensures { PassesLeadToOwnRows }
{}

/// A refusal leaves the service as it was.
pub fn refusals_change_nothing()
    ensures { RefusalsChangeNothing }
{}

/// A slot stays its job's and its user's, its steps never fall, and once it is ended or cancelled, and no worker has it, nothing
/// changes it.
#[tactic(auto, using(crate::proofs::Staying::slots_are_kept))]
pub fn slots_are_kept()
    ensures { SlotsAreKept }
{}
