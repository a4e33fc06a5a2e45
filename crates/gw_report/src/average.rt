//! Averages over the clock.

ghost use Rattle.std.specs.Prelude.{◌≡◌, ◌++◌};
ghost use Rattle.gw_writing.specs.Text.{Puts};
ghost use Rattle.gw_report.specs.Report.{average_so_far, quotient_text};
ghost use Rattle.gw_entities.specs.Average.{average};

use crate::figures::Figures;
use gw_object::Memory;
use gw_writing::{put_number, put_places};

/// The whole part of an average, and its thousandths.
#[derive(Clone, Copy)]
struct Quotient {
    whole: u128,
    thousandths: u16,
}

/// An average over so many clock units, cut to thousandths; 0 at clock 0. A thousand times the sum may be more than a `u128`
/// holds, so the whole part is divided off first.
#[tactic(auto, using(crate::proofs::Averages::divided))]
fn average_of(sum: u128, clock: u64) -> Quotient
    ensures { record { whole = result.whole; thousandths = result.thousandths } ≡ average sum clock }
{
    if clock == 0 {
        return Quotient {
            whole: 0,
            thousandths: 0,
        };
    }
    let clock = u128::from(clock);
    Quotient {
        whole: sum / clock,
        thousandths: (sum % clock * 1000 / clock) as u16,
    }
}

/// A text, and a quotient after it, with three digits of thousandths.
fn put_quotient(out: &mut Vec<u8>, text: &str, quotient: Quotient) -> Result<(), Memory>
    ensures { Puts result out.old out.new (text.now ++ quotient_text quotient.whole quotient.thousandths) }
{
    let thousandths = quotient.thousandths;
    put_number(out, text, quotient.whole)?;
    put_places(out, 3, u128::from(thousandths))
}

/// A text, and after it the average over the clock of what sums up to this, with three digits of thousandths.
pub(crate) fn put_average(
    out: &mut Vec<u8>,
    text: &str,
    sum: u128,
    figures: &Figures,
) -> Result<(), Memory>
    ensures { Puts result out.old out.new (text.now ++ average_so_far sum figures.now) }
{
    let average = average_of(sum, figures.clock().unsigned_abs());
    put_quotient(out, text, average)
}
