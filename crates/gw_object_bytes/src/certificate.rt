//! The weights of blocks and their slopes, in bytes and against the rules of the object format.

ghost use Rattle.std.specs.Prelude.{◌≡◌, ◌↔◌, true, false, IsTrue, IfOk, IfSome, map};
ghost use Rattle.std.specs.List.{All};
ghost use Rattle.gw_fields.specs.Answers.{Gives};
ghost use Rattle.gw_fields.specs.Fields.{both, plain};
ghost use Rattle.gw_field_bytes.specs.Receivers.{Puts};
ghost use Rattle.gw_object.specs.Grammar.{IsSlopeOfVersion, SlopeFits, certificate};
ghost use Rattle.gw_object.specs.Grammar as model;
ghost use Rattle.gw_object_bytes.specs.Tables.{sloped_weights, sloped_spelling};

use crate::Memory;
use gw_block_bytes::{is_parameter, read_parameter_number};
use gw_field_bytes::{
    Elements, Front, Reading, Receiver, Spelled, put_behind, read_elements, read_ranged_u32,
};
use gw_fields::codes::TAG;
use gw_fields::{Items, ReadError, fault};
use gw_object::{GREATEST_WEIGHT, Slope};
use std::alloc::Global;

/// A block's weight, and its slope.
type SlopedWeight = (u32, Option<Slope>);

/// Whether a slope stands behind each weight of a block.
fn has_slopes(version: u16) -> bool
    ensures { result ≡ model.has_slopes version }
{
    version != 1
}

/// A slope: the number of its parameter, and how much a weight grows with each 1 of its value above 0.
fn read_parameter_slope(alloc: Global, bytes: &[u8]) -> Result<(Slope, &[u8]), ReadError>
    ensures { Gives (λ x. (x.0, x.1.now)) result (model.parameter_slope.read bytes.now) }
{
    let (parameter, rest) = read_parameter_number(alloc, bytes)?;
    let (growth, rest) = read_ranged_u32(alloc, rest, 1, GREATEST_WEIGHT)?;
    Ok(((parameter, growth), rest))
}

/// The slope of a block's weight, where slopes stand behind weights: 00, or 01 and the slope.
fn read_slope(alloc: Global, bytes: &[u8]) -> Result<(Option<Slope>, &[u8]), ReadError>
    ensures { Gives (λ x. (x.0, x.1.now)) result ((model.slope_where true).read bytes.now) }
{
    let (flag, rest) = u8::read(alloc, bytes)?;
    match flag {
        0 => Ok((None, rest)),
        1 => {
            let (slope, rest) = read_parameter_slope(alloc, rest)?;
            Ok((Some(slope), rest))
        }
        _ => Err(fault(TAG, bytes)),
    }
}

/// The weights of blocks, where no slope stands behind them.
struct WithoutSlopes;

impl Elements for WithoutSlopes {
    type Item = SlopedWeight;

    ghost reading = { (plain (both model.weight (model.slope_where false))).read };

    fn read<'a>(alloc: Global, _: Front<Self>, _: usize, bytes: &'a [u8]) -> Reading<'a, Self> {
        let (weight, rest) = read_ranged_u32(alloc, bytes, 1, GREATEST_WEIGHT)?;
        Ok(((weight, None), rest))
    }
}

/// The weights of blocks, and behind each its slope.
struct WithSlopes;

impl Elements for WithSlopes {
    type Item = SlopedWeight;

    ghost reading = { (plain (both model.weight (model.slope_where true))).read };

    fn read<'a>(alloc: Global, _: Front<Self>, _: usize, bytes: &'a [u8]) -> Reading<'a, Self> {
        let (weight, rest) = read_ranged_u32(alloc, bytes, 1, GREATEST_WEIGHT)?;
        let (slope, rest) = read_slope(alloc, rest)?;
        Ok(((weight, slope), rest))
    }
}

/// So many weights of blocks with their slopes.
fn read_sloped_weights(
    alloc: Global,
    version: u16,
    n: usize,
    bytes: &[u8],
) -> Result<(Vec<SlopedWeight>, &[u8]), ReadError>
    ensures { Gives (λ x. (x.0.items, x.1.now)) result ((sloped_weights version n).read bytes.now) }
{
    if has_slopes(version) {
        read_elements::<WithSlopes>(alloc, n, bytes)
    } else {
        read_elements::<WithoutSlopes>(alloc, n, bytes)
    }
}

/// A block's weight, without its slope.
fn weight_of(sloped: &SlopedWeight) -> u32
    ensures { result ≡ sloped.now.0 }
{
    sloped.0
}

/// The slope of a block's weight.
fn slope_of(sloped: &SlopedWeight) -> Option<Slope>
    ensures { result ≡ sloped.now.1 }
{
    sloped.1
}

/// The weights of blocks.
fn weights_of(alloc: Global, sloped: &[SlopedWeight]) -> Result<Vec<u32>, Memory>
    ensures { IfOk result (λ weights. weights.items ≡ map (λ x. x.0) sloped.now) }
{
    sloped.iter().map(weight_of).collect(alloc)
}

/// The slopes of the weights of blocks.
fn slopes_of(alloc: Global, sloped: &[SlopedWeight]) -> Result<Vec<Option<Slope>>, Memory>
    ensures { IfOk result (λ slopes. slopes.items ≡ map (λ x. x.1) sloped.now) }
{
    sloped.iter().map(slope_of).collect(alloc)
}

/// The weights of so many blocks, and their slopes.
pub fn read_certificate(
    alloc: Global,
    version: u16,
    blocks: usize,
    bytes: &[u8],
) -> Result<((Items<u32>, Items<Option<Slope>>), &[u8]), ReadError>
    ensures { Gives (λ x. (x.0, x.1.now)) result ((certificate version blocks).read bytes.now) }
{
    let (sloped, rest) = read_sloped_weights(alloc, version, blocks, bytes)?;
    let weights = weights_of(alloc, sloped.as_slice())?;
    let slopes = slopes_of(alloc, sloped.as_slice())?;
    Ok(((Items::from_vec(weights), Items::from_vec(slopes)), rest))
}

/// Puts the slope of a block's weight into a receiver, where slopes stand behind weights: 00, or 01 and the slope.
#[tactic(auto, using(gw_field_bytes::proofs::Receiving::joining))]
fn put_slope_behind<R: Receiver>(to: &mut R, slope: Option<Slope>) -> Result<(), R::Refusal>
    ensures { Puts R.content to.old to.new ((model.slope_where true).spell slope) result }
{
    match slope {
        None => to.put_bytes(&[0]),
        Some((parameter, growth)) => put_behind(to, 1, &(parameter, growth)),
    }
}

/// Puts the slope of a block's weight into a receiver, in a version: nothing where no slopes stand behind weights.
#[tactic(auto, using(gw_field_bytes::proofs::Receiving::joining))]
fn put_slope<R: Receiver>(to: &mut R, version: u16, slope: Option<Slope>) -> Result<(), R::Refusal>
    ensures { Puts R.content to.old to.new ((model.slope version).spell slope) result }
{
    if has_slopes(version) {
        put_slope_behind(to, slope)
    } else {
        to.put_bytes(&[])
    }
}

/// Puts a block's weight into a receiver, and its slope behind it.
#[tactic(auto, using(gw_field_bytes::proofs::Receiving::joining))]
fn put_weight<R: Receiver>(
    to: &mut R,
    version: u16,
    weight: u32,
    slope: Option<Slope>,
) -> Result<(), R::Refusal>
    ensures { Puts R.content to.old to.new ((model.sloped_weight version).spell (weight, slope)) result }
{
    weight.put(to)?;
    put_slope(to, version, slope)
}

/// Puts the weights of blocks and their slopes into a receiver.
#[tactic(auto, using(gw_field_bytes::proofs::Receiving::joining))]
pub fn put_certificate<R: Receiver>(
    to: &mut R,
    version: u16,
    weights: &[u32],
    slopes: &[Option<Slope>],
) -> Result<(), R::Refusal>
    ensures { Puts R.content to.old to.new (sloped_spelling version weights.now slopes.now) result }
{
    for i in 0..weights.len().min(slopes.len()) {
        put_weight(to, version, weights[i], slopes[i])?;
    }
    Ok(())
}

/// Whether a version has this slope of a weight.
fn is_slope_of_version(version: u16, slope: Option<Slope>) -> bool
    ensures { IsTrue result ↔ IsSlopeOfVersion version slope }
{
    match slope {
        Some(_) => has_slopes(version),
        None => true,
    }
}

/// Whether a version has each of these slopes of weights.
pub fn are_slopes_of_version(version: u16, slopes: &[Option<Slope>]) -> bool
    ensures { IsTrue result ↔ All (IsSlopeOfVersion version) slopes.now }
{
    slopes
        .iter()
        .all(|slope| is_slope_of_version(version, *slope))
}

/// Whether a slope keeps its limits, if there is one.
fn slope_fits(slope: Option<Slope>) -> bool
    ensures { IsTrue result ↔ IfSome slope SlopeFits }
{
    match slope {
        Some((parameter, growth)) => {
            is_parameter(parameter) && 1 <= growth && growth <= GREATEST_WEIGHT
        }
        None => true,
    }
}

/// Whether each slope keeps its limits.
pub fn slopes_fit(slopes: &[Option<Slope>]) -> bool
    ensures { IsTrue result ↔ All (λ slope. IfSome slope SlopeFits) slopes.now }
{
    slopes.iter().all(|slope| slope_fits(*slope))
}
