ghost use Rattle.std.specs.Prelude.{◌-◌, pos, length, slice_index_or, unsigned_abs, ◌≡◌, ◌≤◌, ◌<◌, ◌↔◌, All, EachIndex, IsTrue, IfOk, IfErr, MatchOption};
ghost use Rattle.definitions.specs.Signature.{limit};
ghost use Rattle.definitions.specs.Hall.{InHall, hall_list};
ghost use Rattle.lie_bracket.specs.Tables.{nonzero};
ghost use Rattle.lie_bracket.specs.Elements.{IsGood, IsGoodAt, IsFirstBad, IsElement, IsRefusedBy, top};

use crate::fault::TermsFault;
use crate::sums::nonzero_terms;
use crate::term::Term;
use hall_set::HallSet;
use std::alloc::Global;
use std::marker::Model;
use words::Memory;

/// A Lie element in Hall coordinates, seen as its terms: their numbers rise, and their factors are from
/// -(2^127 - 1) to 2^127 - 1 and not 0.
#[derive(Drop)]
pub struct LieElement {
    terms: Vec<Term>,
}

impl Model for LieElement {
    ghost use Rattle.std.specs.Prelude.{List};
    ghost use Rattle.lie_bracket.specs.declared.term.Term.{Term};
    ghost use Rattle.lie_bracket.specs.Elements.{IsElement};

    ghost Value = { List Term };

    ghost view = { λ e. e.terms.items };

    ghost invariant = { λ e. IsElement e.terms.items };
}

/// Whether a term may stand after one of the number `last`, among members up to the number `len`.
fn is_good(len: u32, last: u32, t: Term) -> bool
    ensures { IsTrue result ↔ IsGood len last t }
{
    last < t.number && t.number <= len && t.factor != 0 && t.factor != i128::MIN
}

/// The first place with a term that may not stand there.
fn first_bad(len: u32, terms: &[Term]) -> Option<usize>
    ensures { MatchOption result (EachIndex terms.now (IsGoodAt len terms.now)) (IsFirstBad len terms.now) }
{
    let mut last = 0;
    for (i, t) in terms.iter().enumerate() {
        if !is_good(len, last, *t) {
            return Some(i);
        }
        last = t.number;
    }
    None
}

/// The greatest absolute factor, 0 where there are no terms.
fn greatest_factor(terms: &[Term]) -> u128
    ensures { result ≡ top terms.now }
{
    let mut greatest: u128 = 0;
    for t in terms {
        greatest = greatest.max(t.factor.unsigned_abs());
    }
    greatest
}

impl LieElement {
    /// The element of these terms, refused exactly at the first bad place. Takes no memory; the list is dropped on refusal.
    pub fn of(hall: &HallSet, terms: Vec<Term>) -> Result<LieElement, TermsFault>
        ensures terms { IfOk result (λ z. z ≡ terms.items) }
        ensures good { IfOk result (λ z. EachIndex z (IsGoodAt (length (hall_list hall.now.width hall.now.depth)) z)) }
        ensures members { IfOk result (λ z. All (λ t. InHall (hall_list hall.now.width hall.now.depth) t.number) z) }
        ensures fault { IfErr result (IsRefusedBy (hall_list hall.now.width hall.now.depth) terms.items) }
    {
        match first_bad(hall.len(), &terms) {
            None => Ok(LieElement { terms }),
            Some(i) => Err(TermsFault::Place(i as u64)),
        }
    }

    /// The element with these factors, by number from 1, without those that are 0.
    pub fn from_sums(alloc: Global, sums: &[i128]) -> Result<LieElement, Memory>
        requires short { length sums.now ≤ 1024 }
        requires range { EachIndex sums.now (λ h. unsigned_abs (slice_index_or sums.now h (pos 0)) ≤ limit) }
        ensures { IfOk result (λ z. z ≡ nonzero (length sums.now) (λ h. slice_index_or sums.now (h - 1) (pos 0))) }
    {
        Ok(LieElement {
            terms: nonzero_terms(alloc, sums)?,
        })
    }

    /// The terms by rising number.
    pub fn terms(&self) -> &[Term]
        ensures value { result.now ≡ self.now }
        ensures element { IsElement result.now }
    {
        &self.terms
    }

    /// The greatest absolute factor, 0 where there are no terms.
    pub fn top(&self) -> u128
        ensures { result ≡ top self.now }
    {
        greatest_factor(&self.terms)
    }
}
