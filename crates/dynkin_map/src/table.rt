ghost use Rattle.std.specs.Prelude.{◌≡◌, ◌≤◌, ◌^◌, ℕ, List, pos, length, IfOk, IfErr, OnOk, ◌*ℤ◌};
ghost use Rattle.definitions.specs.Words.{IsShape, IsWord};
ghost use Rattle.definitions.specs.Signature.{Fits};
ghost use Rattle.definitions.specs.Commutators.{VanishesAt};
ghost use Rattle.definitions.specs.Hall.{hall_list, expansion};
ghost use Rattle.scaled_tensor.specs.Tensors.{coefficient};
ghost use Rattle.lie_bracket.specs.Brackets.{expanded};
ghost use Rattle.dynkin_map.specs.Coordinates.{coordinates, growth, lie_bounds};
ghost use Rattle.dynkin_map.specs.Faults.{IsRefusedBy, IsTableFault};

use crate::bounds::bound_of;
use crate::coordinates::coordinate_element;
use crate::fault::LieFault;
use crate::growths::growths_of;
use crate::images::images_of;
use crate::rows::Rows;
use hall_set::HallSet;
use lie_bracket::{BracketTable, LieElement, TableFault};
use scaled_tensor::LogTensor;
use std::alloc::Global;
use std::marker::Model;
use words::{Bound, Shape};

/// What takes a logarithm of a shape to its Hall coordinates, seen as the shape.
///
/// It keeps the iterated brackets of the letters of each word, of which there are at most 2,000,
/// and how much they come to at a member of each degree.
#[derive(Drop)]
pub struct DynkinTable {
    shape: Shape,
    members: u32,
    growths: [u64; 8],
    rows: Rows,
}

impl Model for DynkinTable {
    ghost use Rattle.definitions.specs.Words.{Extent};
    ghost use Rattle.dynkin_map.specs.Table.{IsTable};

    ghost Value = { Extent };

    ghost view = { λ t. t.shape };

    ghost invariant = { λ t. IsTable t.shape t.members t.growths t.rows };
}

impl DynkinTable {
    /// The table of a set, from that of its brackets. `Level(k)` comes exactly where k is the first degree whose growth is above 2^40;
    /// `Pair` never comes.
    pub fn build(
        alloc: Global,
        hall: &HallSet,
        table: &BracketTable,
    ) -> Result<DynkinTable, TableFault>
        requires { table.now ≡ hall.now }
        ensures value { IfOk result (λ t. t ≡ hall.now) }
        ensures small { OnOk result ((k : ℕ) → 1 ≤ k → k ≤ hall.now.depth → growth hall.now.width hall.now.depth (hall_list hall.now.width hall.now.depth) k ≤ 2 ^ 40) }
        ensures fault { IfErr result (IsTableFault hall.now) }
    {
        let growths = growths_of(alloc, hall.len(), table)?;
        let rows = images_of(alloc, hall.len(), table)?;
        Ok(DynkinTable {
            shape: hall.shape(),
            members: hall.len(),
            growths,
            rows,
        })
    }

    /// The shape of the logarithms.
    pub fn shape(&self) -> Shape
        ensures value { result ≡ self.now }
        ensures shape { IsShape self.now }
    {
        self.shape
    }

    /// How much the iterated brackets of the words of k letters come to, every sign plus, at the member of degree k where that is most.
    pub fn growth(&self, k: u32) -> u64
        requires some { 1 ≤ k }
        requires within { k ≤ self.now.depth }
        ensures { result ≡ growth self.now.width self.now.depth (hall_list self.now.width self.now.depth) k }
    {
        self.growths[k as usize - 1]
    }

    /// The factors that bound the coordinates of a logarithm, by degree from 1: that of the logarithm's coefficients times the growth,
    /// or times 1 where that is 0.
    pub fn bound(&self) -> Bound
        ensures value { result ≡ lie_bounds self.now }
        ensures shape { IsShape self.now }
    {
        bound_of(self.shape, &self.growths)
    }

    /// The Lie element with the coordinates of a logarithm. The coordinate of degree k is over k times the denominator of the logarithm's
    /// coefficients at k letters. Where the logarithm has the sum 0 over the shuffles of any two nonempty words, the element, expanded,
    /// is k times the logarithm.
    pub fn to_lie(&self, alloc: Global, p: &LogTensor) -> Result<LieElement, LieFault>
        requires { p.now.tensor.extent ≡ self.now }
        ensures value { IfOk result (λ z. z ≡ coordinates p.now.tensor.extent (coefficient p.now.tensor)) }
        ensures fits { OnOk result (Fits (lie_bounds p.now.tensor.extent) p.now.weight) }
        ensures refused { IfErr result (IsRefusedBy p.now.tensor.extent p.now.weight) }
        ensures expands { IfOk result (λ z. ((k : ℕ) → 1 ≤ k → k ≤ p.now.tensor.extent.depth → VanishesAt p.now.tensor.extent.width (coefficient p.now.tensor) k) → (word : List ℕ) → IsWord p.now.tensor.extent word → 1 ≤ length word → expanded (expansion (hall_list p.now.tensor.extent.width p.now.tensor.extent.depth)) z word ≡ pos (length word) *ℤ coefficient p.now.tensor word) }
    {
        let weight = p.weight();
        if !self.bound().fits(weight) {
            return Err(LieFault::Overflow(weight));
        }
        Ok(coordinate_element(alloc, self.members, &self.rows, p)?)
    }
}
