//! Averages over time.

ghost use Rattle.std.specs.Prelude.{◌≡◌, ◌*◌, ◌^◌, ◌≤◌, ℕ};
ghost use Rattle.gw_entities.specs.Average as model;

/// An average over time, cut to thousandths, as the report prints it (ours: docs/report.md).
#[derive(Clone, Copy, PartialEq, Eq)]
pub struct Average {
    /// The whole part.
    pub whole: u64,
    /// The thousandths beside it, 0 to 999.
    pub thousandths: u16,
}

/// The average of what sums up to this over so many clock units.
///
/// A thousand times the sum may be more than a `u128` holds, so the whole part is divided off first.
#[tactic(auto, using(crate::proofs::Averages::divided, crate::proofs::Averages::at_most))]
pub(crate) fn average_of(sum: u128, clock: u64) -> Average
    requires { sum ≤ 2 ^ 62 * clock }
    ensures value { result ≡ model.average sum clock }
    ensures most { (most : ℕ) → sum ≤ most * clock → result.whole ≤ most }
{
    if clock == 0 {
        return Average {
            whole: 0,
            thousandths: 0,
        };
    }
    let clock = u128::from(clock);
    Average {
        whole: (sum / clock) as u64,
        thousandths: (sum % clock * 1000 / clock) as u16,
    }
}
