//! The logarithm by Horner's rule, one level of words after another.
ghost use Rattle.std.specs.Prelude.{◌≡◌, ◌≢◌, ◌+◌, ◌-◌, ◌*◌, ◌^◌, ◌<◌, ◌≤◌, ℕ, List, [], length, pos, unsigned_abs, IsTrue};
ghost use Rattle.definitions.specs.Words.{IsWord, IsShape};
ghost use Rattle.definitions.specs.Products.{scaled_product};
ghost use Rattle.definitions.specs.Logarithm.{reduced, logarithm, log_bound as bound_factor};
ghost use Rattle.definitions.specs.Signature.{limit};
ghost use Rattle.scaled_tensor.specs.Tensors.{coefficient};
ghost use Rattle.tensor_product.specs.Sigs.{IsBoundedBy};
ghost use Rattle.exp_log.specs.Faults.{LogFits};
ghost use Rattle.exp_log.specs.Powers.{log_factor as factor_of};
ghost use Rattle.exp_log.specs.Horner.{HasStepRoom, HasLogRoom, IsTail};

use scaled_tensor::{Arithmetic, Narrow, Tensor, Wide};
use tensor_product::join_level;
use words::{lcm_to, log_bound};

/// The factor of the m-th power in the logarithm at k letters: the m-th part of the least common
/// multiple of 1 .. k, with the sign of (-1)^(m-1).
fn log_factor(m: u32, k: u32) -> i128
    requires some { 1 ≤ m }
    requires k { k ≤ 8 }
    ensures value { result ≡ factor_of m k }
    ensures bound { unsigned_abs result ≤ limit }
{
    let part = (lcm_to(k) / m as u64) as i128;
    if m % 2 == 1 { part } else { -part }
}

/// Writes the coefficients of the words of j letters of the product by a series less 1. They depend
/// on those of shorter words alone.
fn multiply_level<A: Arithmetic>(sum: &mut Tensor, s: &Tensor, j: u32, scaled: &mut [i128])
    requires shape { IsShape sum.old.extent }
    requires same { s.now.extent ≡ sum.old.extent }
    requires some { 1 ≤ j }
    requires j { j ≤ sum.old.extent.depth }
    requires starts { coefficient s.now [] ≡ pos 1 }
    requires scaled { sum.old.extent.width ^ (j - 1) ≤ length scaled.old }
    requires room { (word : List ℕ) → IsWord sum.old.extent word → length word ≡ j → HasStepRoom A.most (coefficient sum.old) (coefficient s.now) word }
    ensures extent { sum.new.extent ≡ sum.old.extent }
    ensures product { (word : List ℕ) → IsWord sum.old.extent word → length word ≡ j → coefficient sum.new word ≡ scaled_product (coefficient sum.old) (reduced (coefficient s.now)) word }
    ensures others { (word : List ℕ) → IsWord sum.old.extent word → length word ≢ j → coefficient sum.new word ≡ coefficient sum.old word }
{
    sum.clear(j);
    join_level::<A>(sum, s, j, scaled);
}

/// One step of Horner's rule: the sum of the powers from the m-th on, with m parts taken from each,
/// becomes that from the one before on. The longest words are written first, so that each level
/// reads the old coefficients of shorter words.
fn next_tail<A: Arithmetic>(sum: &mut Tensor, s: &Tensor, k: u32, m: u32, scaled: &mut [i128])
    requires shape { IsShape sum.old.extent }
    requires same { s.now.extent ≡ sum.old.extent }
    requires some { 2 ≤ m }
    requires m { m ≤ k }
    requires k { k ≤ sum.old.extent.depth }
    requires starts { coefficient s.now [] ≡ pos 1 }
    requires scaled { sum.old.extent.width ^ (k - 1) ≤ length scaled.old }
    requires room { HasLogRoom A.most sum.old.extent (coefficient s.now) k }
    requires tail { IsTail (coefficient s.now) k m sum.old }
    ensures extent { sum.new.extent ≡ sum.old.extent }
    ensures tail { IsTail (coefficient s.now) k (m - 1) sum.new }
    ensures longer { (word : List ℕ) → IsWord sum.old.extent word → k ≤ length word → coefficient sum.new word ≡ coefficient sum.old word }
{
    let mut j = k - m + 1;
    while j > 0 {
        multiply_level::<A>(sum, s, j, scaled);
        j -= 1;
    }
    sum.set(&[], log_factor(m - 1, k));
}

/// Writes the logarithm at the words of k letters. The coefficients of shorter words are scratch.
fn log_level<A: Arithmetic>(sum: &mut Tensor, s: &Tensor, k: u32, scaled: &mut [i128])
    requires shape { IsShape sum.old.extent }
    requires same { s.now.extent ≡ sum.old.extent }
    requires some { 1 ≤ k }
    requires k { k ≤ sum.old.extent.depth }
    requires starts { coefficient s.now [] ≡ pos 1 }
    requires scaled { sum.old.extent.width ^ (k - 1) ≤ length scaled.old }
    requires room { HasLogRoom A.most sum.old.extent (coefficient s.now) k }
    ensures extent { sum.new.extent ≡ sum.old.extent }
    ensures value { (word : List ℕ) → IsWord sum.old.extent word → length word ≡ k → coefficient sum.new word ≡ logarithm (coefficient s.now) word }
    ensures longer { (word : List ℕ) → IsWord sum.old.extent word → k < length word → coefficient sum.new word ≡ coefficient sum.old word }
{
    sum.set(&[], log_factor(k, k));
    let mut m = k;
    while m > 1 {
        next_tail::<A>(sum, s, k, m, scaled);
        m -= 1;
    }
    multiply_level::<A>(sum, s, k, scaled);
}

/// Whether 64 bits hold all numbers on the way to a logarithm of this weight at the words of k letters.
fn is_narrow(weight: u128, k: u32) -> bool
    requires some { 1 ≤ k }
    requires k { k ≤ 8 }
    ensures { IsTrue result → weight ^ k * bound_factor k ≤ 2 ^ 63 - 1 }
{
    let mut bound = log_bound(k) as u128;
    for _i in 0..k {
        bound = bound.saturating_mul(weight);
        if bound > i64::MAX as u128 {
            return false;
        }
    }
    true
}

/// Writes the logarithm at the words of k letters, in 64 bits where these do.
fn log_level_bounded(sum: &mut Tensor, s: &Tensor, weight: u128, k: u32, scaled: &mut [i128])
    requires shape { IsShape sum.old.extent }
    requires same { s.now.extent ≡ sum.old.extent }
    requires some { 1 ≤ k }
    requires k { k ≤ sum.old.extent.depth }
    requires starts { coefficient s.now [] ≡ pos 1 }
    requires scaled { sum.old.extent.width ^ (k - 1) ≤ length scaled.old }
    requires positive { 1 ≤ weight }
    requires bounded { IsBoundedBy s.now weight }
    requires fits { LogFits weight sum.old.extent.depth }
    ensures extent { sum.new.extent ≡ sum.old.extent }
    ensures value { (word : List ℕ) → IsWord sum.old.extent word → length word ≡ k → coefficient sum.new word ≡ logarithm (coefficient s.now) word }
    ensures longer { (word : List ℕ) → IsWord sum.old.extent word → k < length word → coefficient sum.new word ≡ coefficient sum.old word }
{
    if is_narrow(weight, k) {
        log_level::<Narrow>(sum, s, k, scaled);
    } else {
        log_level::<Wide>(sum, s, k, scaled);
    }
}

/// Writes the logarithm of a series that is 1 at the empty word and bounded by a weight other than
/// 0, the longest words first.
fn write_levels(sum: &mut Tensor, s: &Tensor, weight: u128, scaled: &mut [i128])
    requires shape { IsShape sum.old.extent }
    requires same { s.now.extent ≡ sum.old.extent }
    requires starts { coefficient s.now [] ≡ pos 1 }
    requires scaled { sum.old.extent.width ^ (sum.old.extent.depth - 1) ≤ length scaled.old }
    requires positive { 1 ≤ weight }
    requires bounded { IsBoundedBy s.now weight }
    requires fits { LogFits weight sum.old.extent.depth }
    ensures extent { sum.new.extent ≡ sum.old.extent }
    ensures values { (word : List ℕ) → IsWord sum.old.extent word → coefficient sum.new word ≡ logarithm (coefficient s.now) word }
{
    let mut k = sum.shape().depth();
    while k > 0 {
        log_level_bounded(sum, s, weight, k, scaled);
        k -= 1;
    }
    sum.set(&[], 0);
}

/// Writes the logarithm of a series that is 1 at the empty word and bounded by a weight other than
/// 0. Takes no memory: the scratch is small where the levels are, since it is cleared each time.
pub(crate) fn write_log(sum: &mut Tensor, s: &Tensor, weight: u128)
    requires shape { IsShape sum.old.extent }
    requires same { s.now.extent ≡ sum.old.extent }
    requires starts { coefficient s.now [] ≡ pos 1 }
    requires positive { 1 ≤ weight }
    requires bounded { IsBoundedBy s.now weight }
    requires fits { LogFits weight sum.old.extent.depth }
    ensures extent { sum.new.extent ≡ sum.old.extent }
    ensures values { (word : List ℕ) → IsWord sum.old.extent word → coefficient sum.new word ≡ logarithm (coefficient s.now) word }
{
    if sum.level(sum.shape().depth() - 1).len() <= 32 {
        write_levels(sum, s, weight, &mut [0i128; 32]);
    } else {
        write_levels(sum, s, weight, &mut [0i128; 256]);
    }
}
