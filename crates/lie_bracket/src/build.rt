//! The entries of a table of brackets, each from earlier ones.
ghost use Rattle.std.specs.Prelude.{◌≡◌, ◌≤◌, ◌+◌, ◌-◌, ◌*◌, ◌^◌, ℕ, suc, pos, length, EachIndex, IfOk, IsTrue, ◌↔◌, slice_index_or, unsigned_abs};
ghost use Rattle.definitions.specs.Signature.{limit};
ghost use Rattle.definitions.specs.Hall.{hall_list};
ghost use Rattle.lie_bracket.specs.Brackets.{coefficient};
ghost use Rattle.lie_bracket.specs.Entries.{sizes, AreSmall, AreDone, IsPair, bracket_by, entry_of};

use crate::element::LieElement;
use crate::entries::{Entries, terms_of};
use crate::sign::Sign;
use crate::sums::add_brackets;
use hall_set::HallSet;
use std::alloc::Global;
use words::Memory;

/// The factors of the bracket of a pair, by number, in place of zeros: the pair's own number, or, where it isn't in
/// the set, what Jacobi's identity makes of it.
fn write_factors(sum: &mut [i128], hall: &HallSet, entries: &Entries, sign: Sign, a: u32, b: u32)
    requires pair { IsPair hall.now.depth (hall_list hall.now.width hall.now.depth) a b }
    requires len { length sum.old ≡ length (hall_list hall.now.width hall.now.depth) }
    requires zeros { EachIndex sum.old (λ h. slice_index_or sum.old h (pos 0) ≡ pos 0) }
    requires small { AreSmall (length (hall_list hall.now.width hall.now.depth)) entries.now }
    requires done { AreDone sign hall.now.depth (hall_list hall.now.width hall.now.depth) entries.now a b }
    ensures value { EachIndex sum.new (λ h. slice_index_or sum.new h (pos 0) ≡ coefficient (suc h) (bracket_by sign hall.now.depth (hall_list hall.now.width hall.now.depth) a b)) }
    ensures range { EachIndex sum.new (λ h. unsigned_abs (slice_index_or sum.new h (pos 0)) ≤ limit) }
{
    if let Some(n) = hall.find(a, b) {
        sum[n as usize - 1] = 1;
    } else if let Some((l, r)) = hall.parents(b) {
        add_brackets(sum, entries, sign, 1, terms_of(entries, a, l), r);
        add_brackets(sum, entries, sign, sign.of(1), terms_of(entries, a, r), l);
    }
}

/// The bracket of a pair.
pub(crate) fn entry(
    alloc: Global,
    hall: &HallSet,
    entries: &Entries,
    sign: Sign,
    a: u32,
    b: u32,
) -> Result<LieElement, Memory>
    requires pair { IsPair hall.now.depth (hall_list hall.now.width hall.now.depth) a b }
    requires small { AreSmall (length (hall_list hall.now.width hall.now.depth)) entries.now }
    requires done { AreDone sign hall.now.depth (hall_list hall.now.width hall.now.depth) entries.now a b }
    ensures { IfOk result (λ z. z ≡ entry_of sign hall.now.depth (hall_list hall.now.width hall.now.depth) a b) }
{
    let mut sum = vec![in alloc; 0i128; hall.len() as usize]?;
    write_factors(&mut sum, hall, entries, sign, a, b);
    LieElement::from_sums(alloc, &sum)
}

/// Whether the sum of the absolute factors is at most 2^40.
pub(crate) fn is_small(element: &LieElement) -> bool
    ensures { IsTrue result ↔ sizes element.now ≤ 2 ^ 40 }
{
    let mut size: u128 = 0;
    for t in element.terms() {
        size = size.saturating_add(t.factor.unsigned_abs());
    }
    size <= 1 << 40
}
