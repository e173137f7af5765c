//! The Hall set of a run, and its tables.
ghost use Rattle.std.specs.Prelude.{◌≡◌, IfOk, IfErr};
ghost use Rattle.definitions.specs.Words.{IsShape};
ghost use Rattle.basis_cell.specs.Faults.{IsTablesFault};
ghost use Rattle.basis_cell.specs.Holdings.{extent_of};

use basis_cell::{BasisCell, Held};
use hall_set::HallSet;
use lie_bracket::TableFault;
use std::alloc::Global;
use std::marker::Model;
use words::{Memory, Shape};

/// What the sessions of a run share of a shape, seen as the shape's extent: its Hall set, made at once, and a place for its tables, which
/// are built when the first logarithm is asked for.
#[derive(Drop)]
pub struct Basis {
    hall: HallSet,
    cell: BasisCell,
}

impl Model for Basis {
    ghost use Rattle.definitions.specs.Words.{Extent};

    ghost Value = { Extent };

    ghost view = { λ b. b.hall };
}

impl Basis {
    /// The basis of a shape, without tables.
    pub fn build(alloc: Global, shape: Shape) -> Result<Basis, Memory>
        ensures { IfOk result (λ basis. basis ≡ shape) }
    {
        Ok(Basis {
            hall: HallSet::build(alloc, shape)?,
            cell: BasisCell::new(alloc),
        })
    }

    /// The Hall set.
    pub fn hall(&self) -> &HallSet
        ensures { result.now ≡ self.now }
    {
        &self.hall
    }

    /// The tables, which are built at the first call, refused exactly where a pair or a degree is too heavy.
    pub fn tables(&self, alloc: Global) -> Result<Held<'_>, TableFault>
        ensures tables { IfOk result (λ held. extent_of held ≡ self.now) }
        ensures fault { IfErr result (IsTablesFault self.now) }
        ensures shape { IsShape self.now }
    {
        self.cell.tables(alloc, self.hall.shape())
    }
}
