ghost use Rattle.std.specs.Prelude.{◌≡◌, ◌≢◌, ◌≤◌, ◌<◌, ◌+◌, ◌-◌, ◌^◌, ◌*ℤ◌, ◌↔◌, take, drop, ℕ, List, All, IsTrue, IfOk, IfErr, MatchOption, length, unsigned_abs};
ghost use Rattle.definitions.specs.Words.{IsWord};
ghost use Rattle.definitions.specs.Signature.{limit};
ghost use Rattle.scaled_tensor.specs.Tensors.{coefficient};
ghost use Rattle.definitions.specs.Hall.{InHall, IsHallList, hall_list, degree, expansion};
ghost use Rattle.lie_bracket.specs.Brackets.{expanded};
ghost use Rattle.lie_bracket.specs.Expanding.{FitsLevel, FitsBelow, IsExpandFault};

use crate::element::LieElement;
use crate::fault::ExpandFault;
use crate::numbers::{difference_of, product_of, sum_of};
use crate::term::Term;
use hall_set::{HallSet, Member};
use scaled_tensor::Tensor;
use std::alloc::Global;

/// The coefficient at a word of the product, by plain concatenation, of two members' expansions.
#[cycle(expansions)]
fn product_at(members: &[Member], i: u32, j: u32, word: &[u32]) -> i128
    requires list { IsHallList members.now }
    requires left { InHall members.now i }
    requires right { InHall members.now j }
    requires letters { length word.now ≡ degree members.now i + degree members.now j }
    ensures value { result ≡ expansion members.now i (take (degree members.now i) word.now) *ℤ expansion members.now j (drop (degree members.now i) word.now) }
    ensures bound { unsigned_abs result ≤ 2 ^ (length word.now - 2) }
{
    let (front, back) = word.split_at(members[i as usize - 1].degree() as usize);
    let first = coefficient_of(members, i, front);
    if first == 0 {
        return 0;
    }
    product_of(first, coefficient_of(members, j, back))
}

/// The coefficient of a member's expansion at a word of as many letters as its degree.
#[cycle(expansions)]
fn coefficient_of(members: &[Member], h: u32, word: &[u32]) -> i128
    requires list { IsHallList members.now }
    requires number { InHall members.now h }
    requires letters { length word.now ≡ degree members.now h }
    ensures value { result ≡ expansion members.now h word.now }
    ensures bound { unsigned_abs result ≤ 2 ^ (length word.now - 1) }
{
    match members[h as usize - 1] {
        Member::Letter => { if word[0] == h { 1 } else { 0 } }
        Member::Pair { left, right, .. } => difference_of(
            product_at(members, left, right, word),
            product_at(members, right, left, word),
        ),
    }
}

/// The coefficient of a sum of members at a word.
fn sum_at(members: &[Member], terms: &[Term], word: &[u32]) -> i128
    requires list { IsHallList members.now }
    requires numbers { All (λ t. InHall members.now t.number) terms.now }
    requires fits { FitsLevel members.now terms.now (length word.now) }
    ensures value { result ≡ expanded (expansion members.now) terms.now word.now }
    ensures bound { unsigned_abs result ≤ limit }
{
    let mut sum = 0;
    for t in terms {
        if members[t.number as usize - 1].degree() as usize == word.len() {
            let part = product_of(t.factor, coefficient_of(members, t.number, word));
            sum = sum_of(sum, part);
        }
    }
    sum
}

/// Whether the members of degree k can be expanded.
fn fits_level(members: &[Member], terms: &[Term], k: u32) -> bool
    requires numbers { All (λ t. InHall members.now t.number) terms.now }
    requires some { 1 ≤ k }
    requires small { k ≤ 8 }
    ensures { IsTrue result ↔ FitsLevel members.now terms.now k }
{
    let mut size: u128 = 0;
    for t in terms {
        if members[t.number as usize - 1].degree() == k {
            size = size.saturating_add(t.factor.unsigned_abs());
        }
    }
    size <= i128::MAX.unsigned_abs() / 2u128.pow(k - 1)
}

/// The first degree up to the depth that doesn't fit.
fn first_past(members: &[Member], terms: &[Term], depth: u32) -> Option<u32>
    requires numbers { All (λ t. InHall members.now t.number) terms.now }
    requires small { depth ≤ 8 }
    ensures { MatchOption result (FitsBelow members.now terms.now (depth + 1)) (λ k. (1 ≤ k) × (k ≤ depth) × (FitsLevel members.now terms.now k → ⊥) × FitsBelow members.now terms.now k) }
{
    for before in 0..depth {
        if !fits_level(members, terms, before + 1) {
            return Some(before + 1);
        }
    }
    None
}

/// Writes the coefficients of a sum of members at the words of k letters.
fn write_level(tensor: &mut Tensor, hall: &HallSet, terms: &[Term], k: u32)
    requires extent { tensor.old.extent ≡ hall.now }
    requires numbers { All (λ t. InHall (hall_list hall.now.width hall.now.depth) t.number) terms.now }
    requires fits { FitsLevel (hall_list hall.now.width hall.now.depth) terms.now k }
    requires depth { k ≤ hall.now.depth }
    ensures extent { tensor.new.extent ≡ hall.now }
    ensures level { (word : List ℕ) → IsWord hall.now word → length word ≡ k → coefficient tensor.new word ≡ expanded (expansion (hall_list hall.now.width hall.now.depth)) terms.now word }
    ensures others { (word : List ℕ) → IsWord hall.now word → length word ≢ k → coefficient tensor.new word ≡ coefficient tensor.old word }
{
    let shape = hall.shape();
    let mut letters = [1u32; 8];
    let word = &mut letters[..k as usize];
    for number in 0..shape.count(k) {
        shape.write_word(number, word);
        tensor.set(word, sum_at(hall.members(), terms, word));
    }
}

/// The tensor of a Lie element: at a word of k letters the sum, over the members of degree k, of their factors times
/// their expansions, where a letter is its word and a pair the commutator of its parents by plain concatenation.
pub fn expand(alloc: Global, hall: &HallSet, z: &LieElement) -> Result<Tensor, ExpandFault>
    requires { All (λ t. InHall (hall_list hall.now.width hall.now.depth) t.number) z.now }
    ensures extent { IfOk result (λ t. t.extent ≡ hall.now) }
    ensures value { IfOk result (λ t. (word : List ℕ) → IsWord hall.now word → coefficient t word ≡ expanded (expansion (hall_list hall.now.width hall.now.depth)) z.now word) }
    ensures fits { IfOk result (λ t. FitsBelow (hall_list hall.now.width hall.now.depth) z.now (hall.now.depth + 1)) }
    ensures fault { IfErr result (IsExpandFault hall.now.depth (hall_list hall.now.width hall.now.depth) z.now) }
{
    let depth = hall.shape().depth();
    if let Some(k) = first_past(hall.members(), z.terms(), depth) {
        return Err(ExpandFault::Level(k));
    }
    let mut tensor = Tensor::zero(alloc, hall.shape())?;
    for before in 0..depth {
        write_level(&mut tensor, hall, z.terms(), before + 1);
    }
    Ok(tensor)
}
