//! The steps of unfolding: the logarithm from the expansion, its bounds, and then level by level.
ghost use Rattle.std.specs.Prelude.{◌≡◌, ◌+◌, ◌-◌, ◌≤◌, ◌-ℤ◌, ℕ, List, [], map, length, pos, int_div, IfOk, IfErr, OnOk, MatchOption};
ghost use Rattle.definitions.specs.Words.{IsShape, IsWord, up_to};
ghost use Rattle.definitions.specs.Logarithm.{logarithm};
ghost use Rattle.scaled_tensor.specs.Tensors.{coefficient};
ghost use Rattle.tensor_product.specs.Sigs.{IsBoundedBy};
ghost use Rattle.piecewise.specs.Faults.{AreMultiples, EachBelow, IsFirst, IsLevelFault, IsLogLevel, UnfoldFits, Unfolds, unfold_bound};
ghost use Rattle.piecewise.specs.Levels.{IsSplitFault, IsKnown, IsFaultAt};

use crate::fault::UnfoldFault;
use crate::levels::{are_multiples, are_within, write_differences, write_quotients};
use exp_log::log_series;
use scaled_tensor::Tensor;
use std::alloc::Global;
use words::{Bound, Memory, Shape, lcm_to, log_bound};

/// The factors that bound the differences of two logarithms, one for each length of a word from 1.
pub(crate) fn bounds_of(shape: Shape) -> Bound
    ensures { result ≡ map unfold_bound (up_to shape.depth) }
{
    let depth = shape.depth() as usize;
    let mut factors = [1u128; 8];
    for k in 0..depth {
        factors[k] = 2 * log_bound(k as u32 + 1) as u128;
    }
    Bound::of(&factors[..depth])
}

/// The expansion with each level divided by the number of its letters, refused at the first one
/// that leaves a remainder.
pub(crate) fn split(alloc: Global, expansion: &Tensor) -> Result<Tensor, UnfoldFault>
    ensures extent { IfOk result (λ t. t.extent ≡ expansion.now.extent) }
    ensures values { IfOk result (λ t. (word : List ℕ) → IsWord expansion.now.extent word → 1 ≤ length word → coefficient t word ≡ int_div (coefficient expansion.now word) (pos (length word))) }
    ensures empty { IfOk result (λ t. coefficient t [] ≡ pos 0) }
    ensures splits { OnOk result (EachBelow (λ k. AreMultiples expansion.now.extent (coefficient expansion.now) k k) (expansion.now.extent.depth + 1)) }
    ensures fault { IfErr result (IsSplitFault expansion.now.extent (coefficient expansion.now)) }
{
    let mut log = Tensor::zero(alloc, expansion.shape())?;
    for before in 0..expansion.shape().depth() {
        let k = before + 1;
        if !are_multiples(expansion, k, k as u64) {
            return Err(UnfoldFault::Split(k));
        }
        write_quotients(&mut log, expansion, k, k as u64);
    }
    Ok(log)
}

/// The first level that is past the bound of a logarithm.
pub(crate) fn first_past(log: &Tensor, weight: u128) -> Option<u32>
    requires { UnfoldFits weight log.now.extent.depth }
    ensures { MatchOption result (EachBelow (IsLogLevel log.now.extent (coefficient log.now) weight) (log.now.extent.depth + 1)) (IsFirst log.now.extent.depth (IsLogLevel log.now.extent (coefficient log.now) weight)) }
{
    for before in 0..log.shape().depth() {
        let k = before + 1;
        if !are_within(log, k, weight.pow(k) * log_bound(k) as u128) {
            return Some(k);
        }
    }
    None
}

/// What the levels below k leave of a logarithm at the words of k letters, and 0 elsewhere.
fn left_of(
    alloc: Global,
    known: &Tensor,
    log: &Tensor,
    weight: u128,
    k: u32,
) -> Result<Tensor, Memory>
    requires same { known.now.extent ≡ log.now.extent }
    requires some { 1 ≤ k }
    requires k { k ≤ log.now.extent.depth }
    requires fits { UnfoldFits weight log.now.extent.depth }
    requires within { IsLogLevel log.now.extent (coefficient log.now) weight k }
    requires starts { coefficient known.now [] ≡ pos 1 }
    requires bounded { IsBoundedBy known.now weight }
    ensures extent { IfOk result (λ t. t.extent ≡ log.now.extent) }
    ensures level { IfOk result (λ t. (word : List ℕ) → IsWord log.now.extent word → length word ≡ k → coefficient t word ≡ coefficient log.now word -ℤ logarithm (coefficient known.now) word) }
{
    let below = log_series(alloc, known, weight)?;
    let mut left = Tensor::zero(alloc, log.shape())?;
    write_differences(&mut left, log, &below, k);
    Ok(left)
}

/// Writes the coefficients of the words of k letters of the series with this logarithm, where those
/// of fewer letters are known and the others are 0.
fn unfold_level(
    alloc: Global,
    known: &mut Tensor,
    log: &Tensor,
    weight: u128,
    k: u32,
) -> Result<(), UnfoldFault>
    requires shape { IsShape log.now.extent }
    requires some { 1 ≤ k }
    requires k { k ≤ log.now.extent.depth }
    requires fits { UnfoldFits weight log.now.extent.depth }
    requires within { IsLogLevel log.now.extent (coefficient log.now) weight k }
    requires known { IsKnown log.now.extent (coefficient log.now) weight (k - 1) known.old }
    ensures known { OnOk result (IsKnown log.now.extent (coefficient log.now) weight k known.new) }
    ensures level { OnOk result (Unfolds log.now.extent (coefficient log.now) weight k) }
    ensures fault { IfErr result (IsFaultAt log.now.extent (coefficient log.now) weight k) }
{
    let left = left_of(alloc, known, log, weight, k)?;
    if !are_multiples(&left, k, lcm_to(k)) {
        return Err(UnfoldFault::Whole(k));
    }
    write_quotients(known, &left, k, lcm_to(k));
    if !are_within(known, k, weight.pow(k)) {
        return Err(UnfoldFault::Size(k));
    }
    Ok(())
}

/// The series with this logarithm, level by level, refused at the first level that can't be
/// unfolded.
pub(crate) fn unfold_levels(
    alloc: Global,
    log: &Tensor,
    weight: u128,
) -> Result<Tensor, UnfoldFault>
    requires fits { UnfoldFits weight log.now.extent.depth }
    requires within { EachBelow (IsLogLevel log.now.extent (coefficient log.now) weight) (log.now.extent.depth + 1) }
    ensures known { IfOk result (IsKnown log.now.extent (coefficient log.now) weight log.now.extent.depth) }
    ensures levels { OnOk result (EachBelow (Unfolds log.now.extent (coefficient log.now) weight) (log.now.extent.depth + 1)) }
    ensures fault { IfErr result (IsLevelFault log.now.extent (coefficient log.now) weight) }
{
    let mut known = Tensor::unit(alloc, log.shape())?;
    for before in 0..log.shape().depth() {
        unfold_level(alloc, &mut known, log, weight, before + 1)?;
    }
    Ok(known)
}
