//! The product of the exponentials of moves, which is their signature.
ghost use Rattle.std.specs.Prelude.{◌≡◌, ◌^◌, ◌<◌, ◌≤◌, All, IfOk};
ghost use Rattle.definitions.specs.Moves.{IsMove};
ghost use Rattle.definitions.specs.Signature.{weight, limit};
ghost use Rattle.tensor_product.specs.Sigs.{StandsFor};

use hall_set::HallSet;
use solve::add_row;
use std::alloc::Global;
use tensor_product::Sig;
use words::{Free, Memory, Move, Steps};

/// The sum of the weights of moves.
pub fn weight_of_moves(moves: &[Move]) -> u128
    ensures { result ≡ weight moves.now }
{
    let mut sum = 0;
    for x in moves {
        sum += x.weight();
    }
    sum
}

/// The signature of moves whose weight fits.
pub fn signature_of(alloc: Global, hall: &HallSet, moves: &[Move]) -> Result<Sig, Memory>
    requires moves { All (IsMove hall.now) moves.now }
    requires fits { weight moves.now ^ hall.now.depth ≤ limit }
    ensures extent { IfOk result (λ s. s.tensor.extent ≡ hall.now) }
    ensures stands { IfOk result (λ s. StandsFor s moves.now) }
{
    let mut steps = Steps::new(Free);
    let mut sig = Sig::unit(alloc, hall.shape())?;
    for x in moves {
        add_row(alloc, &mut sig, x, hall, &mut steps)?;
    }
    Ok(sig)
}
