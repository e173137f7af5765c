ghost use Rattle.std.specs.Prelude.{◌≡◌, ◌≢◌, ◌^◌, ◌<◌, ◌≤◌, ℕ, List, All, flat_map, length, IfOk, IfErr, OnOk};
ghost use Rattle.definitions.specs.Words.{IsWord};
ghost use Rattle.definitions.specs.Moves.{Parts};
ghost use Rattle.definitions.specs.Signature.{limit, signature};
ghost use Rattle.definitions.specs.Hall.{InHall, hall_list};
ghost use Rattle.scaled_tensor.specs.Tensors.{coefficient};
ghost use Rattle.tensor_product.specs.Sigs.{IsBoundedBy};
ghost use Rattle.piecewise.specs.Series.{product_of};
ghost use Rattle.piecewise.specs.Wholes.{AreCoordinatesOfEach, HaveMembers, IsWantOfRoomInWhole, IsWholeFault, UnfoldBefore, total_weight as sum_of_weights};
ghost use Rattle.piecewise.specs.Placed.{IsPlaced, IsRefusedPart, IsSeriesOf};
ghost use Rattle.piecewise.specs.declared.fault.UnfoldFault.TheVariants.{Memory as no_memory};
ghost use Rattle.piecewise.specs.declared.fault.WholeFault.TheVariants.{Memory as short, Part as part_refused};

use crate::fault::{UnfoldFault, WholeFault};
use crate::part::unfold;
use hall_set::HallSet;
use lie_bracket::LieElement;
use scaled_tensor::Tensor;
use std::alloc::Global;
use tensor_product::multiply::join_bounded;
use tensor_product::{Overflow, fitting};

/// The sum of the weights of parts.
fn total_weight(parts: &[(LieElement, u128)]) -> u128
    requires { sum_of_weights parts.now < 2 ^ 127 }
    ensures { result ≡ sum_of_weights parts.now }
{
    let mut total: u128 = 0;
    for part in parts {
        total += part.1;
    }
    total
}

/// The refusal of the part at a place. Want of memory is no refusal of the part.
fn placed(fault: UnfoldFault, place: usize) -> WholeFault
    ensures memory { fault ≡ no_memory → result ≡ short }
    ensures part { fault ≢ no_memory → result ≡ part_refused place fault }
{
    if fault == UnfoldFault::Memory {
        WholeFault::Memory
    } else {
        WholeFault::Part(place as u64, fault)
    }
}

/// The series of the part at a place, refused with this place.
fn unfold_part(
    alloc: Global,
    hall: &HallSet,
    z: &LieElement,
    weight: u128,
    place: usize,
) -> Result<Tensor, WholeFault>
    requires { All (λ t. InHall (hall_list hall.now.width hall.now.depth) t.number) z.now }
    ensures series { IfOk result (IsSeriesOf hall.now z.now weight) }
    ensures fault { IfErr result (IsRefusedPart hall.now z.now weight place) }
{
    match unfold(alloc, hall, z, weight) {
        Ok(series) => Ok(series),
        Err(fault) => Err(placed(fault, place)),
    }
}

/// Unfolds each part, and refuses the first that can't be.
fn try_parts(alloc: Global, hall: &HallSet, parts: &[(LieElement, u128)]) -> Result<(), WholeFault>
    requires { HaveMembers hall.now parts.now }
    ensures unfolds { OnOk result (UnfoldBefore hall.now parts.now (length parts.now)) }
    ensures fault { IfErr result (IsPlaced hall.now parts.now) }
{
    for (place, part) in parts.iter().enumerate() {
        unfold_part(alloc, hall, &part.0, part.1, place)?;
    }
    Ok(())
}

/// The product of the series of the parts from left to right, where the sum of the weights fits.
fn multiply_parts(
    alloc: Global,
    hall: &HallSet,
    parts: &[(LieElement, u128)],
) -> Result<Tensor, WholeFault>
    requires members { HaveMembers hall.now parts.now }
    requires fits { sum_of_weights parts.now ^ hall.now.depth ≤ limit }
    requires sum { sum_of_weights parts.now < 2 ^ 127 }
    ensures extent { IfOk result (λ t. t.extent ≡ hall.now) }
    ensures values { IfOk result (λ t. (word : List ℕ) → IsWord hall.now word → coefficient t word ≡ product_of hall.now parts.now word) }
    ensures bounded { IfOk result (λ t. IsBoundedBy t (sum_of_weights parts.now)) }
    ensures unfolds { OnOk result (UnfoldBefore hall.now parts.now (length parts.now)) }
    ensures fault { IfErr result (IsPlaced hall.now parts.now) }
{
    let mut product = Tensor::unit(alloc, hall.shape())?;
    let mut bound: u128 = 0;
    for (place, part) in parts.iter().enumerate() {
        let series = unfold_part(alloc, hall, &part.0, part.1, place)?;
        join_bounded(&mut product, &series, bound, part.1);
        bound += part.1;
    }
    Ok(product)
}

/// The product, from left to right, of the series whose logarithms have the coordinates of the
/// parts; the unit where there are no parts. At k letters it is at most the k-th power of the sum of
/// the weights.
///
/// The coordinates of the logarithms of signatures, with the weights of their moves, give the
/// signature of all the moves, one part after another, or there is no room for them.
pub fn whole(
    alloc: Global,
    hall: &HallSet,
    parts: &[(LieElement, u128)],
) -> Result<Tensor, WholeFault>
    requires members { HaveMembers hall.now parts.now }
    requires sum { sum_of_weights parts.now < 2 ^ 127 }
    ensures extent { IfOk result (λ t. t.extent ≡ hall.now) }
    ensures values { IfOk result (λ t. (word : List ℕ) → IsWord hall.now word → coefficient t word ≡ product_of hall.now parts.now word) }
    ensures bounded { IfOk result (λ t. IsBoundedBy t (sum_of_weights parts.now)) }
    ensures unfolds { OnOk result (UnfoldBefore hall.now parts.now (length parts.now)) }
    ensures fits { OnOk result (sum_of_weights parts.now ^ hall.now.depth ≤ limit) }
    ensures fault { IfErr result (IsWholeFault hall.now parts.now) }
    ensures signature { IfOk result (λ t. (lists : List (List Parts)) → AreCoordinatesOfEach hall.now lists parts.now → (word : List ℕ) → IsWord hall.now word → coefficient t word ≡ signature (flat_map (λ moves. moves) lists) word) }
    ensures room { IfErr result (λ fault. (lists : List (List Parts)) → AreCoordinatesOfEach hall.now lists parts.now → IsWantOfRoomInWhole fault) }
{
    match fitting(hall.shape(), total_weight(parts)) {
        Ok(_) => multiply_parts(alloc, hall, parts),
        Err(Overflow(total)) => {
            try_parts(alloc, hall, parts)?;
            Err(WholeFault::Overflow(total))
        }
    }
}
