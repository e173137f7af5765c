//! The exponential of a tensor without a constant term.
ghost use Rattle.std.specs.Prelude.{◌≡◌, ◌≤◌, ◌*ℤ◌, ◌+ℤ◌, ℕ, List, length, unsigned_abs, IfOk};
ghost use Rattle.definitions.specs.Words.{IsWord, IsShape};
ghost use Rattle.definitions.specs.Exponentials.{plain_product, exponential};
ghost use Rattle.definitions.specs.Signature.{limit};
ghost use Rattle.scaled_tensor.specs.Tensors.{coefficient};
ghost use Rattle.tensor_product.specs.Exponentiation.{HasPowerRoom, exp_factor as factor_of};
ghost use Rattle.tensor_product.specs.Extension.{prefixes_of};
ghost use Rattle.tensor_product.specs.Concatenation.{HasPlainRoom, IsWritten};
ghost use Rattle.tensor_product.specs.Sums.{HasSumRoom, IsAddedAt};

use crate::concatenate::concatenate_tensors;
use scaled_tensor::Tensor;
use std::alloc::Global;
use words::{Memory, factorial};

/// The sum of a number and a multiple.
fn sum_with(sum: i128, factor: i128, value: i128) -> i128
    requires { HasSumRoom sum factor value }
    ensures value { result ≡ sum +ℤ factor *ℤ value }
    ensures bound { unsigned_abs result ≤ limit }
{
    sum + factor * value
}

/// The factor of the m-th power in the exponential at k letters, k! / m!.
fn exp_factor(m: u32, k: u32) -> i128
    requires m { m ≤ 8 }
    requires k { k ≤ 8 }
    ensures { result ≡ factor_of m k }
{
    (factorial(k) / factorial(m)) as i128
}

/// Adds the m-th power at one word.
fn add_word(sum: &mut Tensor, power: &Tensor, m: u32, word: &[u32])
    requires shape { IsShape sum.old.extent }
    requires same { power.now.extent ≡ sum.old.extent }
    requires m { m ≤ 8 }
    requires word { IsWord sum.old.extent word.now }
    requires room { HasSumRoom (coefficient sum.old word.now) (factor_of m (length word.now)) (coefficient power.now word.now) }
    ensures { IsAddedAt (λ w. w ≡ word.now) (factor_of m) power.now sum.old sum.new }
{
    let factor = exp_factor(m, word.len() as u32);
    let value = sum_with(sum.get(word), factor, power.get(word));
    sum.set(word, value);
}

/// Adds the m-th power at the words of k letters.
fn add_level(sum: &mut Tensor, power: &Tensor, m: u32, k: u32)
    requires shape { IsShape sum.old.extent }
    requires same { power.now.extent ≡ sum.old.extent }
    requires m { m ≤ 8 }
    requires k { k ≤ sum.old.extent.depth }
    requires room { (word : List ℕ) → IsWord sum.old.extent word → length word ≡ k → HasSumRoom (coefficient sum.old word) (factor_of m (length word)) (coefficient power.now word) }
    ensures { IsAddedAt (λ w. length w ≡ k) (factor_of m) power.now sum.old sum.new }
{
    let shape = power.shape();
    let count = power.level(k).len() as u64;
    let mut letters = [0u32; 8];
    let word = &mut letters[..k as usize];
    for index in 0..count {
        shape.write_word(index, word);
        add_word(sum, power, m, word);
    }
}

/// Adds the m-th power to an exponential, with its factor at each level. The power is 0 at the words
/// of fewer than m letters, which are left as they are.
fn add_power(sum: &mut Tensor, power: &Tensor, m: u32)
    requires shape { IsShape sum.old.extent }
    requires same { power.now.extent ≡ sum.old.extent }
    requires m { m ≤ sum.old.extent.depth }
    requires room { (word : List ℕ) → IsWord sum.old.extent word → m ≤ length word → HasSumRoom (coefficient sum.old word) (factor_of m (length word)) (coefficient power.now word) }
    ensures { IsAddedAt (λ w. m ≤ length w) (factor_of m) power.now sum.old sum.new }
{
    for k in m..power.shape().depth() + 1 {
        add_level(sum, power, m, k);
    }
}

/// The product of a tensor and a power of it by plain concatenation, which is the next power.
fn next_power(alloc: Global, z: &Tensor, power: &Tensor) -> Result<Tensor, Memory>
    requires shape { IsShape z.now.extent }
    requires same { power.now.extent ≡ z.now.extent }
    requires room { (word : List ℕ) → IsWord z.now.extent word → HasPlainRoom (prefixes_of z.now word) (coefficient power.now) word }
    ensures { IfOk result (λ next. IsWritten z.now.extent (plain_product (coefficient z.now) (coefficient power.now)) next) }
{
    let mut next = Tensor::zero(alloc, z.shape())?;
    concatenate_tensors(z, power, &mut next);
    Ok(next)
}

/// The exponential of a tensor without a constant term: the sum over m, up to the depth, of the
/// m-th powers, each with its factor. No power and no sum on the way may leave the range of a coefficient.
pub(crate) fn exponential_of(alloc: Global, z: &Tensor) -> Result<Tensor, Memory>
    requires { HasPowerRoom z.now }
    ensures extent { IfOk result (λ t. t.extent ≡ z.now.extent) }
    ensures values { IfOk result (λ t. (word : List ℕ) → IsWord z.now.extent word → coefficient t word ≡ exponential (coefficient z.now) word) }
{
    let shape = z.shape();
    let mut power = Tensor::unit(alloc, shape)?;
    let mut sum = Tensor::unit(alloc, shape)?;
    for m in 1..shape.depth() + 1 {
        power = next_power(alloc, z, &power)?;
        add_power(&mut sum, &power, m);
    }
    Ok(sum)
}
