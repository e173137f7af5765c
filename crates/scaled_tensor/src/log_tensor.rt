ghost use Rattle.std.specs.Prelude.{◌≡◌, ◌≤◌, ◌↔◌, List, ℕ, All, length, unsigned_abs, IsTrue, SomeIff};
ghost use Rattle.definitions.specs.Words.{IsWord};
ghost use Rattle.definitions.specs.Signature.{limit};
ghost use Rattle.scaled_tensor.specs.Tensors.{coefficient};
ghost use Rattle.scaled_tensor.specs.LogTensors.{IsLogTensor};

use crate::tensor::Tensor;
use std::marker::Model;
use words::log_bound;

/// A logarithm up to the depth of its shape, with the weight that bounds it: at a word of k letters
/// the numerator over k! times the least common multiple of 1 .. k. It is 0 at the empty word, and
/// at k letters at most the k-th power of the weight times `log_bound(k)`.
#[derive(Drop)]
pub struct LogTensor {
    tensor: Tensor,
    weight: u128,
}

impl Model for LogTensor {
    ghost use Rattle.scaled_tensor.specs.LogTensors.{LogTensorValue, IsLogTensor};

    ghost Value = { LogTensorValue };

    ghost view = { λ p. record { tensor = p.tensor; weight = p.weight } };

    ghost invariant = { λ p. IsLogTensor (record { tensor = p.tensor; weight = p.weight }) };
}

/// Whether no absolute value is greater than the bound.
fn all_within(values: &[i128], bound: u128) -> bool
    ensures { IsTrue result ↔ All (λ z. unsigned_abs z ≤ bound) values.now }
{
    for value in values {
        if value.unsigned_abs() > bound {
            return false;
        }
    }
    true
}

/// Whether no coefficient of a word of k letters is greater than the bound.
fn level_within(tensor: &Tensor, k: u32, bound: u128) -> bool
    requires { k ≤ tensor.now.extent.depth }
    ensures within { IsTrue result ↔ ((word : List ℕ) → IsWord tensor.now.extent word → length word ≡ k → unsigned_abs (coefficient tensor.now word) ≤ bound) }
    ensures range { (word : List ℕ) → IsWord tensor.now.extent word → length word ≡ k → unsigned_abs (coefficient tensor.now word) ≤ limit }
{
    all_within(tensor.level(k), bound)
}

/// Whether a tensor is within the bounds of a logarithm of this weight. A bound past the range of
/// `u128` is as good as its end, since no coefficient is that great.
fn is_log_tensor(tensor: &Tensor, weight: u128) -> bool
    ensures { IsTrue result ↔ IsLogTensor (record { tensor = tensor.now; weight = weight }) }
{
    let mut power: u128 = 1;
    for k in 0..tensor.shape().depth() + 1 {
        if !level_within(tensor, k, power.saturating_mul(log_bound(k) as u128)) {
            return false;
        }
        power = power.saturating_mul(weight);
    }
    true
}

impl LogTensor {
    /// The logarithm of these coefficients, or `None` exactly where the one of the empty word is
    /// not 0, or that of some word of k letters is greater than the k-th power of the weight times
    /// `log_bound(k)`. Takes no memory; a tensor that is refused is dropped.
    pub fn of(tensor: Tensor, weight: u128) -> Option<LogTensor>
        ensures { SomeIff result (IsLogTensor (record { tensor = tensor; weight = weight })) (record { tensor = tensor; weight = weight }) }
    {
        if is_log_tensor(&tensor, weight) {
            Some(LogTensor { tensor, weight })
        } else {
            None
        }
    }

    /// The coefficients.
    pub fn tensor(&self) -> &Tensor
        ensures value { result.now ≡ self.now.tensor }
        ensures log { IsLogTensor self.now }
    {
        &self.tensor
    }

    /// The weight that bounds the coefficients.
    pub fn weight(&self) -> u128
        ensures value { result ≡ self.now.weight }
        ensures log { IsLogTensor self.now }
    {
        self.weight
    }
}
