ghost use Rattle.std.specs.Prelude.{◌≡◌, ◌≤◌, ◌+◌, ◌*◌, ◌^◌, ◌+ℤ◌, ◌↔◌, ℕ, suc, pos, None, All, EachIndex, IsTrue, IfOk, IfErr, length, slice_index_or, unsigned_abs};
ghost use Rattle.definitions.specs.Words.{IsShape};
ghost use Rattle.definitions.specs.Signature.{limit};
ghost use Rattle.definitions.specs.Hall.{InHall, hall_list};
ghost use Rattle.lie_bracket.specs.Brackets.{coefficient, over_terms, bracket, majorant, bracket_sums};
ghost use Rattle.lie_bracket.specs.Elements.{top};
ghost use Rattle.lie_bracket.specs.Entries.{AreSmall, Numbers, sizes, looked_up, AreTables};
ghost use Rattle.lie_bracket.specs.Tables.{nonzero, heavy_pair, IsTableFault, IsBracketFault};

use crate::build::{entry, is_small};
use crate::element::LieElement;
use crate::entries::{Entries, store};
use crate::fault::{BracketFault, TableFault};
use crate::pairs::pairs_in_order;
use crate::sign::Sign;
use crate::sums::{add_brackets_with, add_products};
use crate::term::Term;
use hall_set::HallSet;
use std::alloc::Global;
use std::collections::BTreeMap;
use std::marker::Model;
use words::{Memory, Shape};

/// The brackets of all pairs of members of a Hall set whose degrees add up to at most the depth, and their majorants,
/// which are the same with every sign plus.
#[derive(Drop)]
pub struct BracketTable {
    shape: Shape,
    len: u32,
    brackets: Entries,
    majorants: Entries,
}

impl Model for BracketTable {
    ghost use Rattle.std.specs.Prelude.{◌≡◌, length};
    ghost use Rattle.definitions.specs.Words.{Extent, IsShape};
    ghost use Rattle.definitions.specs.Hall.{hall_list};
    ghost use Rattle.lie_bracket.specs.Entries.{AreTables};

    ghost Value = { Extent };

    ghost view = { λ t. t.shape };

    ghost invariant = { λ t. IsShape t.shape × (t.len ≡ length (hall_list t.shape.width t.shape.depth)) × AreTables t.shape.depth (hall_list t.shape.width t.shape.depth) t.brackets t.majorants };
}

/// The brackets and the majorants of all pairs, each from earlier ones. They are kept apart, since the factors of a
/// bracket may cancel.
fn build_entries(alloc: Global, hall: &HallSet) -> Result<(Entries, Entries), TableFault>
    ensures ok { IfOk result (λ t. AreTables hall.now.depth (hall_list hall.now.width hall.now.depth) t.0 t.1) }
    ensures fault { IfErr result (IsTableFault hall.now.depth (hall_list hall.now.width hall.now.depth)) }
{
    let pairs = pairs_in_order(alloc, hall)?;
    let mut majorants = BTreeMap::new(alloc);
    let mut brackets = BTreeMap::new(alloc);
    for k in 0..pairs.len() {
        let (a, b) = pairs[k];
        let majorant = entry(alloc, hall, &majorants, Sign::Plus, a, b)?;
        if !is_small(&majorant) {
            return Err(TableFault::Pair(a, b));
        }
        let bracket = entry(alloc, hall, &brackets, Sign::Minus, a, b)?;
        store(&mut majorants, a, b, majorant)?;
        store(&mut brackets, a, b, bracket)?;
    }
    Ok((brackets, majorants))
}

/// Whether the bracket of two elements with these greatest absolute factors is in range.
fn fits(x: u128, y: u128) -> bool
    ensures { IsTrue result ↔ (x * y * 2 ^ 60 ≤ limit) }
{
    x.saturating_mul(y) <= i128::MAX.unsigned_abs() >> 60
}

/// The bracket of two elements by the entries.
fn product_by(
    alloc: Global,
    len: u32,
    entries: &Entries,
    sign: Sign,
    a: &LieElement,
    b: &LieElement,
) -> Result<LieElement, Memory>
    requires few { len ≤ 1024 }
    requires small { AreSmall len entries.now }
    requires left { Numbers len a.now }
    requires right { Numbers len b.now }
    requires fits { top a.now * top b.now * 2 ^ 60 ≤ limit }
    ensures { IfOk result (λ z. z ≡ nonzero len (λ h. coefficient h (bracket_sums (looked_up sign entries.now) a.now b.now))) }
{
    let mut sum = vec![in alloc; 0i128; len as usize]?;
    add_products(&mut sum, entries, sign, a.terms(), b.terms());
    LieElement::from_sums(alloc, &sum)
}

/// The bracket of two elements by the entries, refused where it might leave the range.
fn checked_product(
    alloc: Global,
    len: u32,
    entries: &Entries,
    sign: Sign,
    a: &LieElement,
    b: &LieElement,
) -> Result<LieElement, BracketFault>
    requires few { len ≤ 1024 }
    requires small { AreSmall len entries.now }
    requires left { Numbers len a.now }
    requires right { Numbers len b.now }
    ensures value { IfOk result (λ z. z ≡ nonzero len (λ h. coefficient h (bracket_sums (looked_up sign entries.now) a.now b.now))) }
    ensures fits { IfOk result (λ z. top a.now * top b.now * 2 ^ 60 ≤ limit) }
    ensures fault { IfErr result (IsBracketFault (top a.now) (top b.now)) }
{
    let (x, y) = (a.top(), b.top());
    if !fits(x, y) {
        return Err(BracketFault::Size(x, y));
    }
    let bracket = product_by(alloc, len, entries, sign, a, b)?;
    Ok(bracket)
}

impl BracketTable {
    /// The table of a set. `Pair(a, b)` comes exactly where (a, b) is the first pair a < b, by rising sum of the degrees, then
    /// falling a, then rising b, whose bracket has a majorant of a mass above 2^40; `Level` never comes.
    pub fn build(alloc: Global, hall: &HallSet) -> Result<BracketTable, TableFault>
        ensures ok { IfOk result (λ t. (t ≡ hall.now) × (heavy_pair hall.now.depth (hall_list hall.now.width hall.now.depth) ≡ None)) }
        ensures fault { IfErr result (IsTableFault hall.now.depth (hall_list hall.now.width hall.now.depth)) }
    {
        let (brackets, majorants) = build_entries(alloc, hall)?;
        Ok(BracketTable {
            shape: hall.shape(),
            len: hall.len(),
            brackets,
            majorants,
        })
    }

    /// The bracket of two Lie elements. `Size(x, y)` comes exactly where the greatest absolute factors x and y of the two have
    /// a product that, times 2^60, is greater than 2^127 - 1.
    pub fn bracket(
        &self,
        alloc: Global,
        a: &LieElement,
        b: &LieElement,
    ) -> Result<LieElement, BracketFault>
        requires left { All (λ t. InHall (hall_list self.now.width self.now.depth) t.number) a.now }
        requires right { All (λ t. InHall (hall_list self.now.width self.now.depth) t.number) b.now }
        ensures value { IfOk result (λ z. (h : ℕ) → coefficient h z ≡ coefficient h (bracket_sums (bracket self.now.depth (hall_list self.now.width self.now.depth)) a.now b.now)) }
        ensures members { IfOk result (λ z. All (λ t. InHall (hall_list self.now.width self.now.depth) t.number) z) }
        ensures fits { IfOk result (λ z. top a.now * top b.now * 2 ^ 60 ≤ limit) }
        ensures fault { IfErr result (IsBracketFault (top a.now) (top b.now)) }
    {
        checked_product(alloc, self.len, &self.brackets, Sign::Minus, a, b)
    }

    /// The majorant of two Lie elements: their bracket with every sign of the rule plus. Refused as `bracket`.
    pub fn majorant(
        &self,
        alloc: Global,
        a: &LieElement,
        b: &LieElement,
    ) -> Result<LieElement, BracketFault>
        requires left { All (λ t. InHall (hall_list self.now.width self.now.depth) t.number) a.now }
        requires right { All (λ t. InHall (hall_list self.now.width self.now.depth) t.number) b.now }
        ensures value { IfOk result (λ z. (h : ℕ) → coefficient h z ≡ coefficient h (bracket_sums (majorant self.now.depth (hall_list self.now.width self.now.depth)) a.now b.now)) }
        ensures members { IfOk result (λ z. All (λ t. InHall (hall_list self.now.width self.now.depth) t.number) z) }
        ensures fits { IfOk result (λ z. top a.now * top b.now * 2 ^ 60 ≤ limit) }
        ensures fault { IfErr result (IsBracketFault (top a.now) (top b.now)) }
    {
        checked_product(alloc, self.len, &self.majorants, Sign::Plus, a, b)
    }

    /// Adds the brackets of a member with the terms, each so many times as its factor says, to a sum by number from 1.
    pub fn add_brackets(&self, sum: &mut [i128], a: u32, terms: &[Term])
        requires left { InHall (hall_list self.now.width self.now.depth) a }
        requires right { All (λ t. InHall (hall_list self.now.width self.now.depth) t.number) terms.now }
        requires len { length sum.old ≡ length (hall_list self.now.width self.now.depth) }
        requires range { sizes terms.now ≤ limit }
        requires room { EachIndex sum.old (λ h. unsigned_abs (slice_index_or sum.old h (pos 0)) + sizes terms.now * 2 ^ 40 ≤ limit) }
        ensures value { EachIndex sum.new (λ h. slice_index_or sum.new h (pos 0) ≡ slice_index_or sum.old h (pos 0) +ℤ coefficient (suc h) (over_terms terms.now (bracket self.now.depth (hall_list self.now.width self.now.depth) a))) }
        ensures bound { EachIndex sum.new (λ h. unsigned_abs (slice_index_or sum.new h (pos 0)) ≤ unsigned_abs (slice_index_or sum.old h (pos 0)) + sizes terms.now * 2 ^ 40) }
    {
        add_brackets_with(sum, &self.brackets, Sign::Minus, a, terms);
    }

    /// Adds the majorants of the brackets, whose every sign is plus, of a member with the terms, each so many times as its factor says, to a sum by number from 1.
    pub fn add_majorants(&self, sum: &mut [i128], a: u32, terms: &[Term])
        requires left { InHall (hall_list self.now.width self.now.depth) a }
        requires right { All (λ t. InHall (hall_list self.now.width self.now.depth) t.number) terms.now }
        requires len { length sum.old ≡ length (hall_list self.now.width self.now.depth) }
        requires range { sizes terms.now ≤ limit }
        requires room { EachIndex sum.old (λ h. unsigned_abs (slice_index_or sum.old h (pos 0)) + sizes terms.now * 2 ^ 40 ≤ limit) }
        ensures value { EachIndex sum.new (λ h. slice_index_or sum.new h (pos 0) ≡ slice_index_or sum.old h (pos 0) +ℤ coefficient (suc h) (over_terms terms.now (majorant self.now.depth (hall_list self.now.width self.now.depth) a))) }
        ensures bound { EachIndex sum.new (λ h. unsigned_abs (slice_index_or sum.new h (pos 0)) ≤ unsigned_abs (slice_index_or sum.old h (pos 0)) + sizes terms.now * 2 ^ 40) }
    {
        add_brackets_with(sum, &self.majorants, Sign::Plus, a, terms);
    }

    /// The shape of the set.
    pub fn shape(&self) -> Shape
        ensures value { result ≡ self.now }
        ensures shape { IsShape self.now }
    {
        self.shape
    }
}
