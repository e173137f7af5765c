ghost use Rattle.std.specs.Prelude.{◌≡◌, ◌≤◌, ℕ, List, [], All, length, pos, IfOk, IfErr, OnOk};
ghost use Rattle.definitions.specs.Words.{IsShape, IsWord};
ghost use Rattle.definitions.specs.Moves.{Parts};
ghost use Rattle.definitions.specs.Signature.{signature};
ghost use Rattle.definitions.specs.Logarithm.{logarithm};
ghost use Rattle.definitions.specs.Hall.{InHall, hall_list};
ghost use Rattle.scaled_tensor.specs.Tensors.{coefficient};
ghost use Rattle.tensor_product.specs.Sigs.{IsBoundedBy};
ghost use Rattle.piecewise.specs.Series.{AreCoordinates, log_of, series_of};
ghost use Rattle.piecewise.specs.Faults.{CanUnfold, IsLog, IsUnfoldFault, IsWantOfRoom};

use crate::fault::UnfoldFault;
use crate::unfolding::{bounds_of, first_past, split, unfold_levels};
use hall_set::HallSet;
use lie_bracket::{LieElement, expand};
use scaled_tensor::Tensor;
use std::alloc::Global;

/// The logarithm with these coordinates: the expansion, with each level divided by the number of its
/// letters, within the bounds of a logarithm of the weight.
fn log_tensor(
    alloc: Global,
    hall: &HallSet,
    z: &LieElement,
    weight: u128,
) -> Result<Tensor, UnfoldFault>
    requires { All (λ t. InHall (hall_list hall.now.width hall.now.depth) t.number) z.now }
    ensures extent { IfOk result (λ t. t.extent ≡ hall.now) }
    ensures values { IfOk result (λ t. (word : List ℕ) → IsWord hall.now word → coefficient t word ≡ log_of hall.now z.now word) }
    ensures log { OnOk result (IsLog hall.now z.now weight) }
    ensures shape { IsShape hall.now }
    ensures fault { IfErr result (IsUnfoldFault hall.now z.now weight) }
{
    if !bounds_of(hall.shape()).fits(weight) {
        return Err(UnfoldFault::Overflow(weight));
    }
    let expansion = expand(alloc, hall, z)?;
    let log = split(alloc, &expansion)?;
    match first_past(&log, weight) {
        Some(k) => Err(UnfoldFault::Log(k)),
        None => Ok(log),
    }
}

/// The series whose logarithm has these coordinates: the expansion of the coordinates, with each
/// level divided by the number of its letters, is the logarithm, and from this the series comes back
/// level by level. It is 1 at the empty word, and at k letters at most the k-th power of the weight.
///
/// The coordinates of the logarithm of a signature, with the weight of its moves, give back the
/// signature, or there is no room for them.
pub fn unfold(
    alloc: Global,
    hall: &HallSet,
    z: &LieElement,
    weight: u128,
) -> Result<Tensor, UnfoldFault>
    requires { All (λ t. InHall (hall_list hall.now.width hall.now.depth) t.number) z.now }
    ensures extent { IfOk result (λ t. t.extent ≡ hall.now) }
    ensures starts { IfOk result (λ t. coefficient t [] ≡ pos 1) }
    ensures values { IfOk result (λ t. (word : List ℕ) → IsWord hall.now word → coefficient t word ≡ series_of hall.now z.now word) }
    ensures logarithm { IfOk result (λ t. (word : List ℕ) → IsWord hall.now word → 1 ≤ length word → logarithm (coefficient t) word ≡ log_of hall.now z.now word) }
    ensures bounded { IfOk result (λ t. IsBoundedBy t weight) }
    ensures unfolds { OnOk result (CanUnfold hall.now z.now weight) }
    ensures fault { IfErr result (IsUnfoldFault hall.now z.now weight) }
    ensures signature { IfOk result (λ t. (moves : List Parts) → AreCoordinates hall.now moves z.now weight → (word : List ℕ) → IsWord hall.now word → coefficient t word ≡ signature moves word) }
    ensures room { IfErr result (λ fault. (moves : List Parts) → AreCoordinates hall.now moves z.now weight → IsWantOfRoom fault) }
{
    let log = log_tensor(alloc, hall, z, weight)?;
    unfold_levels(alloc, &log, weight)
}
