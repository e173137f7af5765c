//! Sums of members as lists of factors by number.
ghost use Rattle.std.specs.Prelude.{◌≡◌, ◌≤◌, ◌+◌, ◌-◌, ◌*◌, ◌^◌, ℕ, suc, pos, ◌+ℤ◌, ◌*ℤ◌, length, EachIndex, IfOk, slice_index_or, unsigned_abs};
ghost use Rattle.definitions.specs.Signature.{limit};
ghost use Rattle.lie_bracket.specs.Brackets.{coefficient, over_terms, bracket_sums};
ghost use Rattle.lie_bracket.specs.Tables.{nonzero};
ghost use Rattle.lie_bracket.specs.Entries.{Numbers, sizes, size_at, AreSmall, looked_up};

use crate::entries::{Entries, terms_of};
use crate::numbers::{product_of, sum_of};
use crate::sign::Sign;
use crate::term::Term;
use std::alloc::{AllocError, Global};
use std::cmp::Ordering;

/// Adds k times each term at its number, which is one more than its place in the sum.
pub fn add_scaled(sum: &mut [i128], k: i128, terms: &[Term])
    requires numbers { Numbers (length sum.old) terms.now }
    requires room { EachIndex sum.old (λ h. unsigned_abs (slice_index_or sum.old h (pos 0)) + unsigned_abs k * size_at (suc h) terms.now ≤ limit) }
    ensures value { EachIndex sum.new (λ h. slice_index_or sum.new h (pos 0) ≡ slice_index_or sum.old h (pos 0) +ℤ (k *ℤ coefficient (suc h) terms.now)) }
{
    for t in terms {
        let at = t.number as usize - 1;
        sum[at] = sum_of(sum[at], product_of(k, t.factor));
    }
}

/// Adds k times the bracket of two members.
pub(crate) fn add_bracket(sum: &mut [i128], entries: &Entries, sign: Sign, k: i128, a: u32, b: u32)
    requires small { AreSmall (length sum.old) entries.now }
    requires range { unsigned_abs k ≤ limit }
    requires room { EachIndex sum.old (λ h. unsigned_abs (slice_index_or sum.old h (pos 0)) + unsigned_abs k * 2 ^ 40 ≤ limit) }
    ensures { EachIndex sum.new (λ h. slice_index_or sum.new h (pos 0) ≡ slice_index_or sum.old h (pos 0) +ℤ (k *ℤ coefficient (suc h) (looked_up sign entries.now a b))) }
{
    match a.cmp(&b) {
        Ordering::Less => add_scaled(sum, k, terms_of(entries, a, b)),
        Ordering::Equal => {}
        Ordering::Greater => add_scaled(sum, sign.of(k), terms_of(entries, b, a)),
    }
}

/// Adds k times the sum of the brackets of the terms with b.
pub(crate) fn add_brackets(
    sum: &mut [i128],
    entries: &Entries,
    sign: Sign,
    k: i128,
    terms: &[Term],
    b: u32,
)
    requires small { AreSmall (length sum.old) entries.now }
    requires room { EachIndex sum.old (λ h. unsigned_abs (slice_index_or sum.old h (pos 0)) + unsigned_abs k * sizes terms.now * 2 ^ 40 ≤ limit) }
    requires range { unsigned_abs k * sizes terms.now ≤ limit }
    ensures { EachIndex sum.new (λ h. slice_index_or sum.new h (pos 0) ≡ slice_index_or sum.old h (pos 0) +ℤ (k *ℤ coefficient (suc h) (over_terms terms.now (λ c. looked_up sign entries.now c b)))) }
{
    for t in terms {
        add_bracket(sum, entries, sign, product_of(k, t.factor), t.number, b);
    }
}

/// Adds the bracket of two sums.
pub(crate) fn add_products(
    sum: &mut [i128],
    entries: &Entries,
    sign: Sign,
    left: &[Term],
    right: &[Term],
)
    requires small { AreSmall (length sum.old) entries.now }
    requires zeros { EachIndex sum.old (λ h. slice_index_or sum.old h (pos 0) ≡ pos 0) }
    requires room { sizes left.now * sizes right.now * 2 ^ 40 ≤ limit }
    ensures value { EachIndex sum.new (λ h. slice_index_or sum.new h (pos 0) ≡ coefficient (suc h) (bracket_sums (looked_up sign entries.now) left.now right.now)) }
    ensures range { EachIndex sum.new (λ h. unsigned_abs (slice_index_or sum.new h (pos 0)) ≤ limit) }
{
    for t in right {
        add_brackets(sum, entries, sign, t.factor, left, t.number);
    }
}

/// Adds the sum of the brackets of a with the terms.
pub(crate) fn add_brackets_with(
    sum: &mut [i128],
    entries: &Entries,
    sign: Sign,
    a: u32,
    terms: &[Term],
)
    requires small { AreSmall (length sum.old) entries.now }
    requires range { sizes terms.now ≤ limit }
    requires room { EachIndex sum.old (λ h. unsigned_abs (slice_index_or sum.old h (pos 0)) + sizes terms.now * 2 ^ 40 ≤ limit) }
    ensures value { EachIndex sum.new (λ h. slice_index_or sum.new h (pos 0) ≡ slice_index_or sum.old h (pos 0) +ℤ coefficient (suc h) (over_terms terms.now (looked_up sign entries.now a))) }
    ensures bound { EachIndex sum.new (λ h. unsigned_abs (slice_index_or sum.new h (pos 0)) ≤ unsigned_abs (slice_index_or sum.old h (pos 0)) + sizes terms.now * 2 ^ 40) }
{
    for t in terms {
        add_bracket(sum, entries, sign, t.factor, a, t.number);
    }
}

/// The terms whose factors aren't 0, by number from 1.
pub(crate) fn nonzero_terms(alloc: Global, sum: &[i128]) -> Result<Vec<Term>, AllocError>
    requires { length sum.now ≤ 1024 }
    ensures { IfOk result (λ v. v.items ≡ nonzero (length sum.now) (λ h. slice_index_or sum.now (h - 1) (pos 0))) }
{
    let mut terms = Vec::new(alloc);
    for (at, factor) in sum.iter().enumerate() {
        if *factor != 0 {
            terms.push(Term {
                factor: *factor,
                number: at as u32 + 1,
            })?;
        }
    }
    Ok(terms)
}
