ghost use Rattle.std.specs.Prelude.{◌≡◌, ◌≢◌, ◌+◌, ◌*◌, ◌^◌, ◌/◌, ◌<◌, ◌≤◌, ◌↔◌, ◌+ℤ◌, ◌*ℤ◌, List, pos, length, unsigned_abs, IfOk, IfErr, OnOk, SomeIff, IsTrue};
ghost use Rattle.definitions.specs.Words.{IsWord, factorial as product_to};
ghost use Rattle.definitions.specs.Moves.{Parts};
ghost use Rattle.definitions.specs.Signature.{signature, limit, Fits};
ghost use Rattle.scaled_tensor.specs.Tensors.{coefficient};
ghost use Rattle.tensor_product.specs.Sigs.{StandsFor};
ghost use Rattle.functionals.specs.Functionals.{IsFunctional, value, term_value, term_size, size, term_bound, value_bound};
ghost use Rattle.functionals.specs.Bounds.{IsSmall, eval_factors};

use crate::LIMIT;
use crate::functional::Functional;
use crate::term::WordTerm;
use scaled_tensor::Tensor;
use tensor_product::{Overflow, Sig};
use words::factorial;

/// The product of the numbers k + 1 .. depth.
pub(crate) fn part_of(depth: u32, k: u32) -> u64
    requires depth { depth ≤ 8 }
    requires k { k ≤ depth }
    ensures value { result ≡ product_to depth / product_to k }
    ensures some { 1 ≤ result }
    ensures bound { result ≤ 40320 }
{
    factorial(depth) / factorial(k)
}

/// The product of three numbers, where it is at most the limit.
pub(crate) fn product_within(a: u128, b: u128, c: u128) -> Option<u128>
    requires { 1 ≤ c }
    ensures { SomeIff result (a * b * c ≤ limit) (a * b * c) }
{
    let product = a.checked_mul(b)?.checked_mul(c)?;
    if product <= LIMIT {
        Some(product)
    } else {
        None
    }
}

/// What a term's value is at most at a signature of this weight, where that is within the limit.
fn bound_of(term: &WordTerm, depth: u32, weight: u128) -> Option<u128>
    requires depth { depth ≤ 8 }
    requires short { length term.now.word ≤ depth }
    requires some { 1 ≤ unsigned_abs term.now.coefficient }
    requires range { unsigned_abs term.now.coefficient ≤ limit }
    requires fits { weight ^ depth ≤ limit }
    ensures { SomeIff result (term_bound depth weight term.now ≤ limit) (term_bound depth weight term.now) }
{
    let k = term.word.list().len() as u32;
    let part = part_of(depth, k);
    product_within(weight.pow(k), part as u128, term.coefficient.unsigned_abs())
}

/// Whether the bounds of all terms add up to at most the limit.
fn is_within(f: &Functional, weight: u128) -> bool
    requires { weight ^ f.now.extent.depth ≤ limit }
    ensures functional { IsFunctional f.now.extent f.now.terms }
    ensures within { IsTrue result ↔ value_bound f.now.extent.depth weight f.now.terms ≤ limit }
{
    let depth = f.shape().depth();
    let mut sum: u128 = 0;
    for term in f.terms() {
        match bound_of(term, depth, weight) {
            Some(bound) => sum += bound,
            None => return false,
        }
        if sum > LIMIT {
            return false;
        }
    }
    true
}

/// The product of two numbers.
pub(crate) fn product_of(a: i128, b: i128) -> i128
    requires { unsigned_abs (a *ℤ b) ≤ limit }
    ensures { result ≡ a *ℤ b }
{
    a * b
}

/// The sum of two numbers.
pub(crate) fn sum_with(a: i128, b: i128) -> i128
    requires { unsigned_abs (a +ℤ b) ≤ limit }
    ensures value { result ≡ a +ℤ b }
    ensures bound { unsigned_abs result ≤ limit }
{
    a + b
}

/// A coefficient times a number of a signature, and then times a part of a factorial.
fn multiple(factor: i128, number: i128, part: u64) -> i128
    requires some { 1 ≤ part }
    requires room { unsigned_abs factor * unsigned_abs number * part ≤ limit }
    ensures { result ≡ factor *ℤ (number *ℤ pos part) }
{
    let first = product_of(factor, number);
    product_of(first, part as i128)
}

/// The value of a term.
fn value_of(term: &WordTerm, tensor: &Tensor, depth: u32) -> i128
    requires depth { depth ≤ 8 }
    requires short { length term.now.word ≤ depth }
    requires word { IsWord tensor.now.extent term.now.word }
    requires range { unsigned_abs term.now.coefficient ≤ limit }
    requires room { term_size depth (coefficient tensor.now) term.now ≤ limit }
    ensures { result ≡ term_value depth (coefficient tensor.now) term.now }
{
    let word = term.word.list();
    let part = part_of(depth, word.len() as u32);
    multiple(term.coefficient, tensor.get(word), part)
}

/// The sum of the values of all terms.
fn sum_of(f: &Functional, tensor: &Tensor) -> i128
    requires same { f.now.extent ≡ tensor.now.extent }
    requires room { size f.now.extent.depth (coefficient tensor.now) f.now.terms ≤ limit }
    ensures value { result ≡ value f.now.extent.depth (coefficient tensor.now) f.now.terms }
    ensures bound { unsigned_abs result ≤ limit }
{
    let depth = f.shape().depth();
    let mut sum: i128 = 0;
    for term in f.terms() {
        let value = value_of(term, tensor, depth);
        sum = sum_with(sum, value);
    }
    sum
}

/// The value of a functional at a signature, over N! where N is the depth. Takes no memory.
pub fn apply(f: &Functional, s: &Sig) -> Result<i128, Overflow>
    requires { f.now.extent ≡ s.now.tensor.extent }
    ensures fits { OnOk result (value_bound f.now.extent.depth s.now.weight f.now.terms ≤ limit) }
    ensures overflow { IfErr result (λ e. (e.0 ≡ s.now.weight) × (limit < value_bound f.now.extent.depth s.now.weight f.now.terms)) }
    ensures coefficients { IfOk result (λ z. z ≡ value f.now.extent.depth (coefficient s.now.tensor) f.now.terms) }
    ensures signature { IfOk result (λ z. (moves : List Parts) → StandsFor s.now moves → z ≡ value f.now.extent.depth (signature moves) f.now.terms) }
{
    let weight = s.weight();
    if !is_within(f, weight) {
        return Err(Overflow(weight));
    }
    Ok(sum_of(f, s.tensor()))
}

/// The value of a functional at a signature whose weight fits the functional's bound, over N! where
/// N is the depth. Takes no memory.
pub fn value_within(f: &Functional, s: &Sig) -> i128
    requires extent { f.now.extent ≡ s.now.tensor.extent }
    requires small { IsSmall f.now.terms }
    requires fits { Fits (eval_factors f.now.extent f.now.terms) s.now.weight }
    ensures coefficients { result ≡ value f.now.extent.depth (coefficient s.now.tensor) f.now.terms }
    ensures signature { (moves : List Parts) → StandsFor s.now moves → result ≡ value f.now.extent.depth (signature moves) f.now.terms }
{
    // they say that the words are of the shape
    let _terms = f.terms();
    match apply(f, s) {
        Ok(value) => value,
        Err(_overflow) => unreachable!(),
    }
}
