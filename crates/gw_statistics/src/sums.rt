//! Sums over values.

ghost use Rattle.std.specs.Prelude.{◌≡◌, ◌≤◌, ◌<◌, ◌^◌, ◌*◌, nat_le, length, pos, ◌+ℤ◌, fold, unsigned_abs};
ghost use Rattle.std.specs.List.{All, list_all, sum_by};
ghost use Rattle.gw_statistics.specs.Summaries.{total as total_of, distance, square, least_from, greatest_from, most_distance};
ghost use Rattle.gw_statistics.specs.Summaries as model;

/// The sum of all values.
pub(crate) fn total(values: &[i128]) -> i128
    requires few { length values.now ≤ 512 }
    requires small { All (λ x. unsigned_abs x ≤ 2 ^ 100) values.now }
    ensures value { result ≡ total_of values.now }
    ensures range { unsigned_abs result ≤ 2 ^ 109 }
{
    let mut sum = 0;
    for value in values {
        sum += *value;
    }
    sum
}

/// The least of a value and others.
pub(crate) fn least(first: i128, values: &[i128]) -> i128
    ensures { result ≡ least_from first values.now }
{
    let mut least = first;
    for value in values {
        least = least.min(*value);
    }
    least
}

/// The greatest of a value and others.
pub(crate) fn greatest(first: i128, values: &[i128]) -> i128
    ensures { result ≡ greatest_from first values.now }
{
    let mut greatest = first;
    for value in values {
        greatest = greatest.max(*value);
    }
    greatest
}

/// Whether no value is too great to be summed.
pub(crate) fn are_small(values: &[i128]) -> bool
    ensures { result ≡ model.are_small values.now }
{
    values.iter().all(|value| value.unsigned_abs() <= 1 << 100)
}

/// Whether no value lies too far from one for its square to be summed.
pub(crate) fn are_near(from: &i128, values: &[i128]) -> bool
    ensures { result ≡ model.are_near from.now values.now }
{
    values.iter().all(|value| from.abs_diff(*value) <= 1 << 50)
}

/// How far values lie from one, all together.
pub(crate) fn sum_of_distances(from: &i128, values: &[i128]) -> u128
    requires few { length values.now ≤ 512 }
    requires near { All (λ x. distance from.now x ≤ most_distance) values.now }
    ensures value { result ≡ sum_by (distance from.now) values.now }
    ensures range { result ≤ 512 * most_distance }
{
    let mut sum = 0;
    for value in values {
        sum += from.abs_diff(*value);
    }
    sum
}

/// The square of how far a value lies from another.
fn square_of(from: &i128, value: &i128) -> u128
    requires { distance from.now value.now ≤ most_distance }
    ensures value { result ≡ square from.now value.now }
    ensures range { result ≤ most_distance * most_distance }
{
    let distance = from.abs_diff(*value);
    distance * distance
}

/// The squares of how far values lie from one, all together.
pub(crate) fn sum_of_squares(from: &i128, values: &[i128]) -> u128
    requires few { length values.now ≤ 512 }
    requires near { All (λ x. distance from.now x ≤ most_distance) values.now }
    ensures value { result ≡ sum_by (square from.now) values.now }
    ensures range { result ≤ 512 * (most_distance * most_distance) }
{
    let mut sum = 0;
    for value in values {
        sum += square_of(from, value);
    }
    sum
}
