//! Quantiles of Student's distribution.

ghost use Rattle.std.specs.Prelude.{◌≡◌, ◌≤◌, ◌<◌, ◌+◌, ◌*◌};
ghost use Rattle.gw_statistics.specs.Quantiles as model;
ghost use Rattle.gw_statistics.specs.Quantiles.{is_enough, first_enough};

/// The quantiles of Student's distribution between whose negative and itself 95 % lies, in
/// thousandths, rounded up, with 1, 2, .. 30 degrees of freedom.
pub const QUANTILES: [u32; 30] = [
    12707, 4303, 3183, 2777, 2571, 2447, 2365, 2307, 2263, 2229, 2201, 2179, 2161, 2145, 2132,
    2120, 2110, 2101, 2094, 2086, 2080, 2074, 2069, 2064, 2060, 2056, 2052, 2049, 2046, 2043,
];

/// The quantile with so many degrees of freedom, at least 1, in thousandths, rounded up: of the
/// table, or of the next fewer degrees that it has, of which those above 30 are 40, 60 and 120. So
/// it is never below the true one.
pub fn quantile(degrees: u32) -> u32
    requires { 0 < degrees }
    ensures value { result ≡ model.quantile degrees }
    ensures range { result ≤ 12707 }
{
    match degrees {
        0..=30 => QUANTILES[degrees as usize - 1],
        31..=39 => 2043,
        40..=59 => 2022,
        60..=119 => 2001,
        _ => 1980,
    }
}

/// Whether half-widths of so many runs in all are at most half of those of n runs, where their values vary alike.
fn halves(n: u32, all: u32) -> bool
    requires runs { (2 ≤ n) × (n ≤ 512) }
    requires all { (n ≤ all) × (all ≤ 4 * n) }
    ensures { result ≡ is_enough n all }
{
    let before = u64::from(quantile(n - 1));
    let after = u64::from(quantile(all - 1));
    4 * u64::from(n) * (after * after) <= u64::from(all) * (before * before)
}

/// How many runs in all halve the half-widths of n, 2 to 512, where the values go on varying as they do: the least number that
/// does, at most four times n.
pub fn runs_to_halve(n: u32) -> u32
    requires { (2 ≤ n) × (n ≤ 512) }
    ensures value { result ≡ first_enough n n (3 * n) }
    ensures range { (n ≤ result) × (result ≤ 4 * n) }
{
    let last = 4 * n;
    let mut all = n;
    while all < last && !halves(n, all) {
        all += 1;
    }
    all
}
