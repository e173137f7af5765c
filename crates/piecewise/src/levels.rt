//! Tests of the coefficients of a level, and divisions of them.
ghost use Rattle.std.specs.Prelude.{◌≡◌, ◌≢◌, ◌≤◌, ◌↔◌, ◌-ℤ◌, ℕ, List, All, length, pos, int_div, int_rem, unsigned_abs, IsTrue};
ghost use Rattle.definitions.specs.Words.{IsWord};
ghost use Rattle.definitions.specs.Signature.{limit};
ghost use Rattle.scaled_tensor.specs.Tensors.{coefficient};
ghost use Rattle.piecewise.specs.Faults.{AreMultiples, AreWithin};

use scaled_tensor::Tensor;

/// Whether a number is a multiple.
fn is_multiple(number: i128, divisor: u64) -> bool
    requires { 1 ≤ divisor }
    ensures { IsTrue result ↔ int_rem number (pos divisor) ≡ pos 0 }
{
    number % divisor as i128 == 0
}

/// The quotient, rounded toward 0.
fn quotient_of(number: i128, divisor: u64) -> i128
    requires some { 1 ≤ divisor }
    requires number { unsigned_abs number ≤ limit }
    ensures value { result ≡ int_div number (pos divisor) }
    ensures bound { unsigned_abs result ≤ limit }
{
    number / divisor as i128
}

/// The difference, where it is within the range of a coefficient.
fn difference_of(a: i128, b: i128) -> i128
    requires { unsigned_abs (a -ℤ b) ≤ limit }
    ensures { result ≡ a -ℤ b }
{
    a - b
}

/// Whether each number is a multiple.
fn all_multiples(numbers: &[i128], divisor: u64) -> bool
    requires { 1 ≤ divisor }
    ensures { IsTrue result ↔ All (λ z. int_rem z (pos divisor) ≡ pos 0) numbers.now }
{
    for number in numbers {
        if !is_multiple(*number, divisor) {
            return false;
        }
    }
    true
}

/// Whether no absolute value is greater than the bound.
fn all_within(numbers: &[i128], bound: u128) -> bool
    ensures { IsTrue result ↔ All (λ z. unsigned_abs z ≤ bound) numbers.now }
{
    for number in numbers {
        if number.unsigned_abs() > bound {
            return false;
        }
    }
    true
}

/// Whether each coefficient of a word of k letters is a multiple.
pub(crate) fn are_multiples(tensor: &Tensor, k: u32, divisor: u64) -> bool
    requires k { k ≤ tensor.now.extent.depth }
    requires some { 1 ≤ divisor }
    ensures { IsTrue result ↔ AreMultiples tensor.now.extent (coefficient tensor.now) k divisor }
{
    all_multiples(tensor.level(k), divisor)
}

/// Whether no coefficient of a word of k letters is greater than the bound.
pub(crate) fn are_within(tensor: &Tensor, k: u32, bound: u128) -> bool
    requires { k ≤ tensor.now.extent.depth }
    ensures { IsTrue result ↔ AreWithin tensor.now.extent (coefficient tensor.now) k bound }
{
    all_within(tensor.level(k), bound)
}

/// Writes the quotients of the coefficients of the words of k letters of another tensor.
pub(crate) fn write_quotients(tensor: &mut Tensor, dividends: &Tensor, k: u32, divisor: u64)
    requires same { tensor.old.extent ≡ dividends.now.extent }
    requires k { k ≤ dividends.now.extent.depth }
    requires some { 1 ≤ divisor }
    ensures extent { tensor.new.extent ≡ dividends.now.extent }
    ensures level { (word : List ℕ) → IsWord dividends.now.extent word → length word ≡ k → coefficient tensor.new word ≡ int_div (coefficient dividends.now word) (pos divisor) }
    ensures others { (word : List ℕ) → IsWord dividends.now.extent word → length word ≢ k → coefficient tensor.new word ≡ coefficient tensor.old word }
{
    let shape = dividends.shape();
    let mut letters = [1u32; 8];
    let word = &mut letters[..k as usize];
    for number in 0..shape.count(k) {
        shape.write_word(number, word);
        tensor.set(word, quotient_of(dividends.get(word), divisor));
    }
}

/// Writes the differences of the coefficients of the words of k letters of two others.
pub(crate) fn write_differences(tensor: &mut Tensor, a: &Tensor, b: &Tensor, k: u32)
    requires same { tensor.old.extent ≡ a.now.extent }
    requires second { b.now.extent ≡ a.now.extent }
    requires k { k ≤ a.now.extent.depth }
    requires room { (word : List ℕ) → IsWord a.now.extent word → length word ≡ k → unsigned_abs (coefficient a.now word -ℤ coefficient b.now word) ≤ limit }
    ensures extent { tensor.new.extent ≡ a.now.extent }
    ensures level { (word : List ℕ) → IsWord a.now.extent word → length word ≡ k → coefficient tensor.new word ≡ coefficient a.now word -ℤ coefficient b.now word }
    ensures others { (word : List ℕ) → IsWord a.now.extent word → length word ≢ k → coefficient tensor.new word ≡ coefficient tensor.old word }
{
    let shape = a.shape();
    let mut letters = [1u32; 8];
    let word = &mut letters[..k as usize];
    for number in 0..shape.count(k) {
        shape.write_word(number, word);
        tensor.set(word, difference_of(a.get(word), b.get(word)));
    }
}
