ghost use Rattle.std.specs.Prelude.{◌≡◌, ◌+◌, ◌<◌, ◌≤◌, ◌↔◌, ℕ, suc, All, length, take, unsigned_abs, IfOk, IfErr, IfSome, IfNone, IsTrue};
ghost use Rattle.definitions.specs.Words.{IsShape, IsWord, IsLetter};
ghost use Rattle.definitions.specs.Signature.{limit};
ghost use Rattle.scaled_tensor.specs.Tensors.{place};
ghost use Rattle.functionals.specs.Functionals.{IsFunctional, word_at, norm as norm_of, mass as mass_of, reach as reach_of};
ghost use Rattle.functionals.specs.Faults.{IsGoodPlace, IsRefusedBy};

use crate::LIMIT;
use crate::fault::FunctionalFault;
use crate::term::WordTerm;
use std::marker::Model;
use words::Shape;

/// A linear functional of the signatures of a shape: words that rise, first by length, then
/// lexicographically, each with a coefficient that isn't 0. The absolute values of the coefficients
/// add up to at most 2^127 - 1.
#[derive(Drop)]
pub struct Functional {
    pub(crate) shape: Shape,
    pub(crate) terms: Vec<WordTerm>,
}

impl Model for Functional {
    ghost use Rattle.functionals.specs.Functionals.{FunctionalValue, IsFunctional};

    ghost Value = { FunctionalValue };

    ghost view = { λ f. record { extent = f.shape; terms = f.terms.items } };

    ghost invariant = { λ f. IsFunctional f.shape f.terms.items };
}

/// Whether each number is a letter.
fn are_letters(width: u32, word: &[u32]) -> bool
    ensures { IsTrue result ↔ All (IsLetter width) word.now }
{
    for letter in word {
        if *letter < 1 || *letter > width {
            return false;
        }
    }
    true
}

/// Whether these letters are a word of the shape.
fn is_word(shape: Shape, word: &[u32]) -> bool
    ensures { IsTrue result ↔ IsWord shape word.now }
{
    word.len() <= shape.depth() as usize && are_letters(shape.width(), word)
}

/// Whether the term at a place is good, where the one before has a word of the shape.
fn is_good(shape: Shape, terms: &[WordTerm], i: usize) -> bool
    requires here { i < length terms.now }
    requires before { (j : ℕ) → suc j ≡ i → IsWord shape (word_at terms.now j) }
    ensures { IsTrue result ↔ IsGoodPlace shape terms.now i }
{
    let term = &terms[i];
    if term.coefficient == 0
        || term.coefficient.unsigned_abs() > LIMIT
        || !is_word(shape, term.word.list())
    {
        return false;
    }
    if i == 0 {
        return true;
    }
    let before = &terms[i - 1];
    shape.place_of(before.word.list()) < shape.place_of(term.word.list())
}

/// The first place that isn't good.
fn first_bad(shape: Shape, terms: &[WordTerm]) -> Option<usize>
    ensures bad { IfSome result (λ i. (i < length terms.now) × ((j : ℕ) → j < i → IsGoodPlace shape terms.now j) × (IsGoodPlace shape terms.now i → ⊥)) }
    ensures shape { IsShape shape }
    ensures good { IfNone result ((j : ℕ) → j < length terms.now → IsGoodPlace shape terms.now j) }
{
    // it says that the shape is one that is served
    let _depth = shape.depth();
    for i in 0..terms.len() {
        if !is_good(shape, terms, i) {
            return Some(i);
        }
    }
    None
}

/// The first place up to which the absolute values add up to too much.
fn first_past(terms: &[WordTerm]) -> Option<usize>
    requires { All (λ t. unsigned_abs t.coefficient ≤ limit) terms.now }
    ensures past { IfSome result (λ i. (i < length terms.now) × (norm_of (take i terms.now) ≤ limit) × (limit < norm_of (take (i + 1) terms.now))) }
    ensures fits { IfNone result (norm_of terms.now ≤ limit) }
{
    let mut sum: u128 = 0;
    for i in 0..terms.len() {
        sum += terms[i].coefficient.unsigned_abs();
        if sum > LIMIT {
            return Some(i);
        }
    }
    None
}

impl Functional {
    /// The functional of these terms, refused exactly as `FunctionalFault` says: a place that isn't
    /// good comes before any norm. Takes no memory; terms that are refused are dropped.
    pub fn of(shape: Shape, terms: Vec<WordTerm>) -> Result<Functional, FunctionalFault>
        ensures extent { IfOk result (λ f. f.extent ≡ shape) }
        ensures terms { IfOk result (λ f. f.terms ≡ terms.items) }
        ensures functional { IfOk result (λ f. IsFunctional f.extent f.terms) }
        ensures refused { IfErr result (λ fault. IsRefusedBy shape terms.items fault) }
    {
        if let Some(i) = first_bad(shape, &terms) {
            return Err(FunctionalFault::Place(i));
        }
        if let Some(i) = first_past(&terms) {
            return Err(FunctionalFault::Norm(i));
        }
        Ok(Functional { shape, terms })
    }

    /// The shape.
    pub fn shape(&self) -> Shape
        ensures value { result ≡ self.now.extent }
        ensures shape { IsShape self.now.extent }
    {
        self.shape
    }

    /// The terms, whose words rise.
    pub fn terms(&self) -> &[WordTerm]
        ensures value { result.now ≡ self.now.terms }
        ensures functional { IsFunctional self.now.extent self.now.terms }
    {
        &self.terms
    }

    /// The greatest number of letters of a word, 0 where there are no terms.
    pub fn reach(&self) -> u32
        ensures value { result ≡ reach_of self.now.terms }
        ensures bound { result ≤ self.now.extent.depth }
    {
        let mut reach: u32 = 0;
        for term in &self.terms {
            reach = reach.max(term.word.list().len() as u32);
        }
        reach
    }

    /// The sum of the absolute values of the coefficients.
    pub fn norm(&self) -> u128
        ensures value { result ≡ norm_of self.now.terms }
        ensures bound { result ≤ limit }
    {
        let mut norm: u128 = 0;
        for term in &self.terms {
            norm += term.coefficient.unsigned_abs();
        }
        norm
    }

    /// The sum of the absolute values of the coefficients of the words of k letters.
    pub fn mass(&self, k: u32) -> u128
        requires { k ≤ self.now.extent.depth }
        ensures value { result ≡ mass_of k self.now.terms }
        ensures bound { result ≤ limit }
    {
        let mut mass: u128 = 0;
        for term in &self.terms {
            if term.word.list().len() == k as usize {
                mass += term.coefficient.unsigned_abs();
            }
        }
        mass
    }
}
