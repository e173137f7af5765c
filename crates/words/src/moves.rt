ghost use Rattle.std.specs.Prelude.{◌≡◌, ◌-◌, ◌≤◌, ◌^◌, ◌↔◌, All, [], length, slice_index_or, IfOk, OnErr, IfSome, IfNone, IsTrue};
ghost use Rattle.definitions.specs.Moves.{IsMove, IsPlain, AreParts, padded, total, sizes_of, move_weight};

use crate::entries::Entries;
use crate::memory::Memory;
use crate::parts::MoveParts;
use crate::shape::Shape;
use std::alloc::Global;
use std::marker::Model;
use std::sync::Arc;

/// Parts with their weight, which is worked out once.
#[derive(Drop)]
struct Weighed {
    parts: MoveParts,
    weight: u128,
}

impl Model for Weighed {
    ghost use Rattle.std.specs.Prelude.{◌≡◌, ◌≤◌, ◌^◌};
    ghost use Rattle.definitions.specs.Moves.{Parts, move_weight};

    ghost Value = { Parts };

    ghost view = { λ m. m.parts };

    ghost invariant = { λ m. record {
      value : m.weight ≡ move_weight m.parts;
      bound : m.weight ≤ 2 ^ 64;
    } };
}

/// What a row adds to the stream, seen as its parts of degree 1 to N: as many as the shape is deep.
/// The first part has an entry for each letter of the shape; the entries of part j are Hall coordinates of degree j.
/// Parts that were not given are empty. A move is never changed, so its copies share it.
#[derive(Drop)]
pub struct Move {
    shared: Arc<Weighed>,
}

impl Model for Move {
    ghost use Rattle.std.specs.Arc.{arc_value};
    ghost use Rattle.definitions.specs.Moves.{Parts};

    ghost Value = { Parts };

    ghost view = { λ m. arc_value m.shared };
}

impl Move {
    /// The move of these parts, or `None` exactly where there are none or more than the shape is deep, the first hasn't an entry for
    /// each letter, or some part has 2^32 entries or more. Parts that are refused are dropped.
    pub fn of(alloc: Global, shape: Shape, parts: Vec<Entries>) -> Result<Option<Move>, Memory>
        ensures given { IfOk result (λ made. IfSome made (λ m. IsMove shape m × (m ≡ padded shape.depth parts.items))) }
        ensures refused { IfOk result (λ made. IfNone made (AreParts shape parts.items → ⊥)) }
        ensures memory { OnErr result (AreParts shape parts.items) }
    {
        let Some(parts) = MoveParts::of(shape, parts) else {
            return Ok(None);
        };
        let weight = parts.weight();
        let shared = Arc::new(alloc, Weighed { parts, weight })?;
        Ok(Some(Move { shared }))
    }

    /// The shape, whose depth is the number of parts.
    pub fn shape(&self) -> Shape
        ensures { IsMove result self.now }
    {
        self.shared.parts.shape()
    }

    /// The entries of the part of degree k, from 1.
    pub fn part(&self, k: u32) -> &[i64]
        requires some { 1 ≤ k }
        requires within { k ≤ length self.now }
        ensures { result.now ≡ slice_index_or self.now (k - 1) [] }
    {
        self.shared.parts.part(k)
    }

    /// Whether no part after the first has an entry other than 0.
    pub fn plain(&self) -> bool
        ensures { IsTrue result ↔ IsPlain self.now }
    {
        self.shared.parts.plain()
    }

    /// Bounds of the coefficients of the move's Lie element, by degree: the greatest absolute entry of
    /// part 1, and for the part of degree j its sum of absolute entries times 2^(j-1).
    pub fn write_sizes(&self, sizes: &mut [u128])
        requires { length sizes.old ≡ length self.now }
        ensures value { sizes.new ≡ sizes_of self.now }
        ensures first { slice_index_or sizes.new 0 0 ≤ 2 ^ 63 }
        ensures small { All (λ p. p ≤ 2 ^ 102) sizes.new }
        ensures totals { All (λ part. total part ≤ 2 ^ 95) self.now }
    {
        self.shared.parts.write_sizes(sizes);
    }

    /// A bound on the move's step: its coefficient at k letters is at most the k-th power of this.
    pub fn weight(&self) -> u128
        ensures value { result ≡ move_weight self.now }
        ensures bound { result ≤ 2 ^ 64 }
    {
        self.shared.weight
    }

    /// An equal move, which shares the parts of this one.
    pub fn copy(&self) -> Result<Move, Memory>
        ensures { IfOk result (λ m. m ≡ self.now) }
    {
        let shared = Arc::try_clone(&self.shared)?;
        Ok(Move { shared })
    }
}
