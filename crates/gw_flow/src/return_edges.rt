//! Edges of TRANSFERs in parameter mode: those that need no comparison, since those of an earlier one were found to fit.

ghost use Rattle.std.specs.Prelude.{◌≡◌, All, IfSome, IsTrue};
ghost use Rattle.gw_flow.specs.ReturnEdges.{PassesBy, IsHeld};
ghost use Rattle.gw_flow.specs.declared.return_edges.Return.{Return as DeclaredReturn};

use crate::abstract_state::AbsState;
use crate::fits::own_suffices;
use crate::leaving::fits;
use crate::lists::of_key;
use crate::table::StateTable;
use gw_rules::ParameterKind;

/// With how many of the latest returns another one is compared: so few that it costs no more than a few edges do.
const LATEST: usize = 8;

/// What a transaction goes by at a TRANSFER in parameter mode.
#[derive(Clone, Copy)]
pub(crate) struct Return<'r> {
    /// What the parameter holds.
    pub kind: ParameterKind,
    /// What is known of the transaction.
    pub state: &'r AbsState,
}

/// What a transaction in a state goes by at a TRANSFER in parameter mode by this parameter, if it is set.
pub(crate) fn return_of(parameter: u8, state: &AbsState) -> Option<Return<'_>>
    ensures kind { IsHeld parameter state.now result }
    ensures state { IfSome result (λ (r : DeclaredReturn). r.state.now ≡ state.now) }
{
    let parameters = state.parts().parameters.as_slice();
    of_key(parameters, parameter as u16).map(|found| Return {
        kind: found.kind,
        state,
    })
}

/// Whether a return leads to some of the blocks to which an earlier one leads, in a state that fits that one's.
fn is_like(table: StateTable<'_, '_>, this: Return<'_>, earlier: Return<'_>) -> bool
    ensures { IsTrue result → PassesBy table.entry earlier.entry → PassesBy table.entry this.entry }
{
    own_suffices(table.returns, this.kind, earlier.kind)
        && fits(table.returns, this.state, earlier.state)
}

/// Whether a return is like one of the latest of these, which pass.
pub(crate) fn is_like_latest(
    table: StateTable<'_, '_>,
    this: Return<'_>,
    earlier: &[Return<'_>],
) -> bool
    requires { All (PassesBy table) earlier.now }
    ensures { IsTrue result → PassesBy table.entry this.entry }
{
    let first = earlier.len().saturating_sub(LATEST);
    for i in first..earlier.len() {
        if is_like(table, this, earlier[i]) {
            return true;
        }
    }
    false
}
