//! Lie elements for pairs of members.
ghost use Rattle.std.specs.Prelude.{◌≡◌, ℕ, OnOk};
ghost use Rattle.lie_bracket.specs.Entries.{stored};
ghost use Rattle.lie_bracket.specs.Elements.{IsElement};

use crate::element::LieElement;
use crate::term::Term;
use std::collections::BTreeMap;
use words::Memory;

/// The element for each pair of numbers.
pub(crate) type Entries = BTreeMap<(u32, u32), LieElement>;

/// The terms for a pair, none where it has no entry.
pub(crate) fn terms_of(entries: &Entries, a: u32, b: u32) -> &[Term]
    ensures { result.now ≡ stored entries.now a b }
{
    match entries.get(&(a, b)) {
        Some(element) => element.terms(),
        None => &[],
    }
}

/// Makes the entry for a pair.
pub(crate) fn store(
    entries: &mut Entries,
    a: u32,
    b: u32,
    element: LieElement,
) -> Result<(), Memory>
    ensures same { OnOk result (stored entries.new a b ≡ element) }
    ensures others { OnOk result ((c d : ℕ) → (a ≡ c → b ≡ d → ⊥) → stored entries.new c d ≡ stored entries.old c d) }
{
    entries.insert((a, b), element)?;
    Ok(())
}
