ghost use Rattle.std.specs.Prelude.{◌≡◌, ℕ, List, [], map, pos, IfOk, IfErr, OnOk};
ghost use Rattle.definitions.specs.Words.{IsWord, up_to};
ghost use Rattle.definitions.specs.Moves.{Parts};
ghost use Rattle.definitions.specs.Logarithm.{logarithm, log_bound as bound_factor};
ghost use Rattle.scaled_tensor.specs.Tensors.{coefficient};
ghost use Rattle.tensor_product.specs.Sigs.{IsBoundedBy, StandsFor};
ghost use Rattle.exp_log.specs.Faults.{LogFits, IsRefusedBy};
ghost use Rattle.exp_log.specs.Logs.{IsLogOf};

use crate::fault::LogFault;
use crate::horner::write_log;
use scaled_tensor::{LogTensor, Tensor};
use std::alloc::Global;
use tensor_product::Sig;
use words::{Bound, Memory, Shape, log_bound};

/// The factors that bound a logarithm of the shape, one for each length of a word from 1.
fn log_bounds(shape: Shape) -> Bound
    ensures { result ≡ map bound_factor (up_to shape.depth) }
{
    let depth = shape.depth() as usize;
    let mut factors = [1u128; 8];
    for k in 0..depth {
        factors[k] = log_bound(k as u32 + 1) as u128;
    }
    Bound::of(&factors[..depth])
}

/// The logarithm of a series that is 1 at the empty word, and at a word of k letters at most the
/// k-th power of a weight that fits: the sum over m, from 1 to the depth, of the m-th powers of the
/// series less 1, each with its factor. The weight bounds each number on the way.
pub fn log_series(alloc: Global, t: &Tensor, weight: u128) -> Result<Tensor, Memory>
    requires starts { coefficient t.now [] ≡ pos 1 }
    requires bounded { IsBoundedBy t.now weight }
    requires fits { LogFits weight t.now.extent.depth }
    ensures extent { IfOk result (λ log. log.extent ≡ t.now.extent) }
    ensures values { IfOk result (λ log. (word : List ℕ) → IsWord t.now.extent word → coefficient log word ≡ logarithm (coefficient t.now) word) }
{
    let mut log = Tensor::zero(alloc, t.shape())?;
    if weight == 0 {
        return Ok(log);
    }
    write_log(&mut log, t, weight);
    Ok(log)
}

/// The logarithm of a signature, with its weight. At a word of k letters the coefficient is over
/// k! times the least common multiple of 1 .. k.
pub fn log(alloc: Global, s: &Sig) -> Result<LogTensor, LogFault>
    ensures fits { OnOk result (LogFits s.now.weight s.now.tensor.extent.depth) }
    ensures refused { IfErr result (λ fault. IsRefusedBy s.now.weight s.now.tensor.extent.depth fault) }
    ensures extent { IfOk result (λ p. p.tensor.extent ≡ s.now.tensor.extent) }
    ensures weight { IfOk result (λ p. p.weight ≡ s.now.weight) }
    ensures values { IfOk result (λ p. (word : List ℕ) → IsWord s.now.tensor.extent word → coefficient p.tensor word ≡ logarithm (coefficient s.now.tensor) word) }
    ensures stands { IfOk result (λ p. (moves : List Parts) → StandsFor s.now moves → IsLogOf p moves) }
{
    let weight = s.weight();
    if !log_bounds(s.tensor().shape()).fits(weight) {
        return Err(LogFault::Overflow(weight));
    }
    let tensor = log_series(alloc, s.tensor(), weight)?;
    match LogTensor::of(tensor, weight) {
        Some(log) => Ok(log),
        None => unreachable!(),
    }
}
