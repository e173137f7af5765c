//! The parts of a move, and what its weight is made of.
ghost use Rattle.std.specs.Prelude.{◌≡◌, ◌-◌, ◌<◌, ◌≤◌, ◌^◌, ◌↔◌, List, All, [], ◌∷◌, length, slice_index_or, IfSome, IfNone, IsTrue};
ghost use Rattle.definitions.specs.Moves.{IsMove, IsPlain, AreParts, padded, greatest, total, sizes_of, move_weight};
ghost use Rattle.words.specs.Sizes.{size_at};

use crate::entries::Entries;
use crate::shape::Shape;
use crate::weights::{total_of, weight_of};
use std::marker::Model;

/// The parts of a move, seen as its parts of degree 1 to N: as many as the shape is deep. Parts that were not given are empty.
#[derive(Drop)]
pub struct MoveParts {
    shape: Shape,
    parts: Vec<Entries>,
}

impl Model for MoveParts {
    ghost use Rattle.definitions.specs.Moves.{Parts, padded, AreParts};

    ghost Value = { Parts };

    ghost view = { λ m. padded m.shape.depth m.parts.items };

    ghost invariant = { λ m. AreParts m.shape m.parts.items };
}

/// The greatest absolute value of an entry, 0 where there is none.
pub fn greatest_entry(entries: &[i64]) -> u128
    ensures value { result ≡ greatest entries.now }
    ensures bound { result ≤ 2 ^ 63 }
{
    let mut weight: u128 = 0;
    for entry in entries {
        weight = weight.max(entry.unsigned_abs() as u128);
    }
    weight
}

/// Whether all entries are 0.
fn all_zero(entries: &[i64]) -> bool
    ensures { IsTrue result ↔ total entries.now ≡ 0 }
{
    for entry in entries {
        if *entry != 0 {
            return false;
        }
    }
    true
}

/// Whether each part has fewer than 2^32 entries.
fn all_short(parts: &[Entries]) -> bool
    ensures { IsTrue result ↔ All (λ part. length part < 2 ^ 32) parts.now }
{
    for part in parts {
        if part.list().len() >= 4_294_967_296 {
            return false;
        }
    }
    true
}

/// Whether these are the parts of a move.
fn are_parts(shape: Shape, parts: &[Entries]) -> bool
    ensures { IsTrue result ↔ AreParts shape parts.now }
{
    match parts.first() {
        None => false,
        Some(first) => {
            parts.len() <= shape.depth() as usize
                && first.list().len() == shape.width() as usize
                && all_short(parts)
        }
    }
}

/// The bound of the part of degree k + 1, where `scale` is 2^k.
fn size_of(entries: &[i64], k: u32, scale: u128) -> u128
    requires short { length entries.now < 2 ^ 32 }
    requires few { k < 8 }
    requires scale { scale ≡ 2 ^ k }
    ensures value { result ≡ size_at k entries.now }
    ensures first { k ≡ 0 → result ≤ 2 ^ 63 }
    ensures small { result ≤ 2 ^ 102 }
    ensures total { total entries.now ≤ 2 ^ 95 }
{
    let sum = total_of(entries);
    if k == 0 {
        greatest_entry(entries)
    } else {
        scale * sum
    }
}

impl MoveParts {
    /// These parts, or `None` exactly where there are none or more than the shape is deep, the first hasn't an entry for
    /// each letter, or some part has 2^32 entries or more. Takes no memory; parts that are refused are dropped.
    pub fn of(shape: Shape, parts: Vec<Entries>) -> Option<MoveParts>
        ensures parts { IfSome result (λ m. AreParts shape parts.items) }
        ensures given { IfSome result (λ m. IsMove shape m × (m ≡ padded shape.depth parts.items)) }
        ensures refused { IfNone result (AreParts shape parts.items → ⊥) }
    {
        if are_parts(shape, &parts) {
            Some(MoveParts { shape, parts })
        } else {
            None
        }
    }

    /// The shape, whose depth is the number of parts.
    pub fn shape(&self) -> Shape
        ensures { IsMove result self.now }
    {
        self.shape
    }

    /// The entries of the part of degree k, from 1.
    pub fn part(&self, k: u32) -> &[i64]
        requires some { 1 ≤ k }
        requires within { k ≤ length self.now }
        ensures { result.now ≡ slice_index_or self.now (k - 1) [] }
    {
        match self.parts.get(k as usize - 1) {
            Some(part) => part.list(),
            None => &[],
        }
    }

    /// Whether no part after the first has an entry other than 0.
    pub fn plain(&self) -> bool
        ensures { IsTrue result ↔ IsPlain self.now }
    {
        for k in 1..self.shape().depth() {
            if !all_zero(self.part(k + 1)) {
                return false;
            }
        }
        true
    }

    /// Bounds of the coefficients of the move's Lie element, by degree: the greatest absolute entry of
    /// part 1, and for the part of degree j its sum of absolute entries times 2^(j-1).
    pub fn write_sizes(&self, sizes: &mut [u128])
        requires { length sizes.old ≡ length self.now }
        ensures value { sizes.new ≡ sizes_of self.now }
        ensures first { slice_index_or sizes.new 0 0 ≤ 2 ^ 63 }
        ensures small { All (λ p. p ≤ 2 ^ 102) sizes.new }
        ensures totals { All (λ part. total part ≤ 2 ^ 95) self.now }
    {
        let depth = self.shape().depth();
        let mut scale: u128 = 1;
        for k in 0..depth {
            sizes[k as usize] = size_of(self.part(k + 1), k, scale);
            scale *= 2;
        }
    }

    /// A bound on the move's step: its coefficient at k letters is at most the k-th power of this.
    pub fn weight(&self) -> u128
        ensures value { result ≡ move_weight self.now }
        ensures bound { result ≤ 2 ^ 64 }
    {
        let mut all = [0u128; 8];
        let sizes = &mut all[..self.shape.depth() as usize];
        self.write_sizes(sizes);
        weight_of(sizes)
    }
}
