//! The words of the ends of runs.

ghost use Rattle.std.specs.Prelude.{◌≡◌, Some};
ghost use Rattle.gw_report.specs.Report.{status_word as word_of_status};
ghost use Rattle.gw_scan.specs.declared.sim.Status.TheVariants.{Ended};

use gw_report::status_word;
use gw_scan::{End, Status};

/// All ends.
const ENDS: [End; 8] = [
    End::Done,
    End::Number,
    End::ZeroDivisor,
    End::NegativeTime,
    End::LoopLimit,
    End::NoMoreEvents,
    End::Budget,
    End::Live,
];

/// The word of an end.
pub(crate) fn word_of(end: End) -> &'static str
    ensures { result.now ≡ word_of_status (Ended end) }
{
    status_word(Status::Ended(end))
}

/// The end of a word, if it is that of one.
pub(crate) fn end_in(word: &[u8]) -> Option<End>
    ensures { (end : End) → word.now ≡ word_of_status (Ended end) → result ≡ Some end }
{
    for end in ENDS {
        if word_of(end).as_bytes() == word {
            return Some(end);
        }
    }
    None
}
