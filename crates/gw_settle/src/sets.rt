//! Sets of numbers, as lists that ascend.

ghost use Rattle.std.specs.Prelude.{◌≡◌, ◌++◌, ◌<◌, ◌≤◌, IfOk, All, AllPairs, drop, filter, length, nat_lt, take};
ghost use Rattle.gw_settle.specs.Joins.{below, not_below, union_of as united_of};

use gw_object::Memory;
use std::alloc::Global;

/// How many of these numbers are below a bound.
fn count_below(numbers: &[u16], bound: u16) -> usize
    requires { AllPairs (λ a b. a < b) numbers.now }
    ensures within { result ≤ length numbers.now }
    ensures below { take result numbers.now ≡ below bound numbers.now }
    ensures others { drop result numbers.now ≡ not_below bound numbers.now }
{
    for i in 0..numbers.len() {
        if bound <= numbers[i] {
            return i;
        }
    }
    numbers.len()
}

/// Adds those of these numbers that are below a bound to others; answers those that are left.
fn push_below<'s>(all: &mut Vec<u16>, numbers: &'s [u16], bound: u16) -> Result<&'s [u16], Memory>
    requires { AllPairs (λ a b. a < b) numbers.now }
    ensures below { IfOk result (λ _. all.new.items ≡ all.old.items ++ below bound numbers.now) }
    ensures others { IfOk result (λ rest. rest.now ≡ not_below bound numbers.now) }
{
    let count = count_below(numbers, bound);
    all.extend_from_slice(&numbers[..count])?;
    Ok(&numbers[count..])
}

/// These numbers without a bound, where it comes first.
fn above(numbers: &[u16], bound: u16) -> &[u16]
    requires ascending { AllPairs (λ a b. a < b) numbers.now }
    requires least { All (λ n. bound ≤ n) numbers.now }
    ensures { result.now ≡ filter (λ n. nat_lt bound n) numbers.now }
{
    match numbers.split_first() {
        Some((first, later)) => { if *first == bound { later } else { numbers } }
        None => numbers,
    }
}

/// How many numbers two lists have in common, from the first on.
fn count_common(numbers: &[u16], others: &[u16]) -> usize
    ensures numbers { result ≤ length numbers.now }
    ensures others { result ≤ length others.now }
    ensures same { take result numbers.now ≡ take result others.now }
{
    let most = numbers.len().min(others.len());
    for i in 0..most {
        if numbers[i] != others[i] {
            return i;
        }
    }
    most
}

/// Adds the numbers of two lists to others, ascending, in one pass.
fn push_united(all: &mut Vec<u16>, numbers: &[u16], others: &[u16]) -> Result<(), Memory>
    requires numbers { AllPairs (λ a b. a < b) numbers.now }
    requires others { AllPairs (λ a b. a < b) others.now }
    ensures { IfOk result (λ _. all.new.items ≡ all.old.items ++ united_of numbers.now others.now) }
{
    let mut rest = numbers;
    for number in others {
        let left = push_below(all, rest, *number)?;
        all.push(*number)?;
        rest = above(left, *number);
    }
    all.extend_from_slice(rest)?;
    Ok(())
}

/// Adds the numbers of two lists to others, ascending; what the two have in common at the front is taken at once.
fn push_union(all: &mut Vec<u16>, numbers: &[u16], others: &[u16]) -> Result<(), Memory>
    requires numbers { AllPairs (λ a b. a < b) numbers.now }
    requires others { AllPairs (λ a b. a < b) others.now }
    ensures { IfOk result (λ _. all.new.items ≡ all.old.items ++ united_of numbers.now others.now) }
{
    let common = count_common(numbers, others);
    all.extend_from_slice(&numbers[..common])?;
    push_united(all, &numbers[common..], &others[common..])?;
    Ok(())
}

/// The numbers of both lists, ascending; what they have in common at the front is taken at once.
pub(crate) fn united(alloc: Global, numbers: &[u16], others: &[u16]) -> Result<Vec<u16>, Memory>
    requires numbers { AllPairs (λ a b. a < b) numbers.now }
    requires others { AllPairs (λ a b. a < b) others.now }
    ensures { IfOk result (λ all. all.items ≡ united_of numbers.now others.now) }
{
    let mut all = Vec::with_capacity(alloc, numbers.len())?;
    push_union(&mut all, numbers, others)?;
    Ok(all)
}
