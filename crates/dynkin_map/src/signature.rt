//! From a signature to the Hall coordinates of its logarithm.
ghost use Rattle.std.specs.Prelude.{◌≡◌, ◌≤◌, ◌*ℤ◌, ℕ, List, All, pos, length, IfOk};
ghost use Rattle.definitions.specs.Words.{IsShape, IsWord};
ghost use Rattle.definitions.specs.Hall.{InHall, hall_list, expansion};
ghost use Rattle.definitions.specs.Logarithm.{logarithm};
ghost use Rattle.definitions.specs.Moves.{Parts};
ghost use Rattle.definitions.specs.Signature.{Fits, signature};
ghost use Rattle.lie_bracket.specs.Brackets.{expanded};
ghost use Rattle.tensor_product.specs.Sigs.{StandsFor};
ghost use Rattle.dynkin_map.specs.Coordinates.{lie_bounds, coordinates};

use crate::fault::LieFault;
use crate::table::DynkinTable;
use exp_log::{LogFault, log};
use lie_bracket::LieElement;
use std::alloc::Global;
use tensor_product::Sig;
use words::Memory;

/// The Lie element of the logarithm of a signature whose weight fits the table's bound. Its
/// coordinates of degree k are over k times the denominator of a logarithm's coefficients at k
/// letters: expanded by brackets, it is k times the logarithm at each word of k letters.
pub fn log_signature(alloc: Global, dynkin: &DynkinTable, sig: &Sig) -> Result<LieElement, Memory>
    requires extent { sig.now.tensor.extent ≡ dynkin.now }
    requires fits { Fits (lie_bounds dynkin.now) sig.now.weight }
    ensures value { (moves : List Parts) → StandsFor sig.now moves → IfOk result (λ z. z ≡ coordinates dynkin.now (logarithm (signature moves))) }
    ensures expands { (moves : List Parts) → StandsFor sig.now moves → IfOk result (λ z. (word : List ℕ) → IsWord dynkin.now word → 1 ≤ length word → expanded (expansion (hall_list dynkin.now.width dynkin.now.depth)) z word ≡ pos (length word) *ℤ logarithm (signature moves) word) }
    ensures members { IfOk result (λ z. All (λ t. InHall (hall_list dynkin.now.width dynkin.now.depth) t.number) z) }
{
    let _shape = dynkin.shape();
    let logarithm = match log(alloc, sig) {
        Ok(logarithm) => logarithm,
        Err(LogFault::Memory) => return Err(Memory),
        Err(LogFault::Overflow(_)) => unreachable!(),
    };
    match dynkin.to_lie(alloc, &logarithm) {
        Ok(lie) => Ok(lie),
        Err(LieFault::Memory) => Err(Memory),
        Err(LieFault::Overflow(_)) => unreachable!(),
    }
}
