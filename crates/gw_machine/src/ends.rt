//! The named ends that evaluations and arithmetic bring.

ghost use Rattle.std.specs.Prelude.{◌≡◌};
ghost use Rattle.gw_rules.specs.Meaning as code;
ghost use Rattle.gw_step.specs.Outcome as outcomes;

use gw_num::NumFault;
use gw_plus::ended_by;
use gw_rules::PlusEnd;
use gw_step::End;

/// The named end that the end of an evaluation brings.
pub fn end_by(end: PlusEnd) -> End
    ensures { result ≡ outcomes.end_by end }
{
    match end {
        PlusEnd::Number => End::Number,
        PlusEnd::ZeroDivisor => End::ZeroDivisor,
        PlusEnd::LoopLimit => End::LoopLimit,
    }
}

/// The named end that a fault of arithmetic brings.
pub fn end_by_fault(fault: NumFault) -> End
    ensures { result ≡ outcomes.end_by (code.ended_by fault) }
{
    end_by(ended_by(fault))
}
