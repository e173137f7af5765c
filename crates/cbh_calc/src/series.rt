ghost use Rattle.std.specs.Prelude.{◌≡◌, ◌≤◌, ◌*ℤ◌, ℕ, List, All, pos, length, IfOk, IfErr, OnOk};
ghost use Rattle.definitions.specs.Words.{IsWord};
ghost use Rattle.definitions.specs.Hall.{InHall, hall_list, expansion};
ghost use Rattle.definitions.specs.Logarithm.{logarithm};
ghost use Rattle.definitions.specs.Moves.{IsMove};
ghost use Rattle.definitions.specs.Signature.{Fits, signature, weight};
ghost use Rattle.lie_bracket.specs.Brackets.{expanded};
ghost use Rattle.dynkin_map.specs.Coordinates.{lie_bounds, coordinates};
ghost use Rattle.cbh_calc.specs.Faults.{IsRefusedBy};

use crate::fault::CbhFault;
use crate::products::{signature_of, weight_of_moves};
use dynkin_map::{DynkinTable, log_signature};
use hall_set::HallSet;
use lie_bracket::LieElement;
use std::alloc::Global;
use words::Move;

/// The Hall coordinates of the logarithm of the product of the exponentials of moves, the first on the left: those of degree k over
/// k times the denominator of a logarithm's coefficients at k letters. Expanded by brackets, the element is k times the logarithm at
/// each word of k letters. No moves give no terms.
///
/// `Overflow` comes exactly where the weight of the moves doesn't fit the table's bound; else want of memory may.
pub fn cbh(
    alloc: Global,
    hall: &HallSet,
    dynkin: &DynkinTable,
    moves: &[Move],
) -> Result<LieElement, CbhFault>
    requires shape { dynkin.now ≡ hall.now }
    requires moves { All (IsMove hall.now) moves.now }
    ensures value { IfOk result (λ z. z ≡ coordinates hall.now (logarithm (signature moves.now))) }
    ensures expands { IfOk result (λ z. (word : List ℕ) → IsWord hall.now word → 1 ≤ length word → expanded (expansion (hall_list hall.now.width hall.now.depth)) z word ≡ pos (length word) *ℤ logarithm (signature moves.now) word) }
    ensures members { IfOk result (λ z. All (λ t. InHall (hall_list hall.now.width hall.now.depth) t.number) z) }
    ensures fits { OnOk result (Fits (lie_bounds hall.now) (weight moves.now)) }
    ensures refused { IfErr result (IsRefusedBy hall.now (weight moves.now)) }
{
    let weight = weight_of_moves(moves);
    if !dynkin.bound().fits(weight) {
        return Err(CbhFault::Overflow(weight));
    }
    let sig = signature_of(alloc, hall, moves)?;
    Ok(log_signature(alloc, dynkin, &sig)?)
}
