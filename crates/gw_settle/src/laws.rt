//! Laws of joins and of rounds, as functions with nothing to do, whose clauses are the laws.

ghost use Rattle.gw_settle.specs.Joins.{JoinIsBelowBoth, JoinIsGreatest, JoinIsOrdered};
ghost use Rattle.gw_settle.specs.Jumps.{JumpsAreRounds};
ghost use Rattle.gw_settle.specs.Keeps.{VisitsKeep, StartIsKept, SettledPasses};

/// What a join knows is known by the row and by the state, and it is all that both know.
pub fn joins_are_greatest()
    ensures below { JoinIsBelowBoth }
    ensures greatest { JoinIsGreatest }
{}

/// The lists of a join ascend as theirs do.
pub fn joins_are_ordered()
    ensures { JoinIsOrdered }
{}

/// The rounds begin with a table each of whose rows fits the row of every table that passes, and each visit keeps that.
pub fn rounds_keep()
    ensures start { StartIsKept }
    ensures visits { VisitsKeep }
{}

/// And where such a table is settled, it passes if any table does.
pub fn settled_passes()
    ensures { SettledPasses }
{}

/// Where two rounds, and one some rounds on, lower amounts alone and alike, all rounds between do.
pub fn jumps_are_rounds()
    ensures { JumpsAreRounds }
{}
