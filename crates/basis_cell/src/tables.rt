ghost use Rattle.std.specs.Prelude.{◌≡◌, IfOk, IfErr, None};
ghost use Rattle.definitions.specs.Words.{IsShape};
ghost use Rattle.definitions.specs.Hall.{hall_list};
ghost use Rattle.lie_bracket.specs.Tables.{heavy_pair};
ghost use Rattle.dynkin_map.specs.Coordinates.{heavy_level};
ghost use Rattle.basis_cell.specs.Faults.{AreLight, IsTablesFault};

use dynkin_map::DynkinTable;
use hall_set::HallSet;
use lie_bracket::{BracketTable, TableFault};
use std::alloc::Global;
use std::marker::Model;
use words::Shape;

/// The Hall set of a shape with its tables, seen as the shape's extent.
#[derive(Drop)]
pub struct Tables {
    hall: HallSet,
    brackets: BracketTable,
    dynkin: DynkinTable,
}

impl Model for Tables {
    ghost use Rattle.std.specs.Prelude.{◌≡◌};
    ghost use Rattle.definitions.specs.Words.{Extent};
    ghost use Rattle.basis_cell.specs.Faults.{AreLight};

    ghost Value = { Extent };

    ghost view = { λ t. t.hall };

    ghost invariant = { λ t. (t.brackets ≡ t.hall) × (t.dynkin ≡ t.hall) × AreLight t.hall };
}

impl Tables {
    /// The tables of a shape, refused exactly where a pair or a degree is too heavy.
    pub fn build(alloc: Global, shape: Shape) -> Result<Tables, TableFault>
        ensures value { IfOk result (λ t. t ≡ shape) }
        ensures fault { IfErr result (IsTablesFault shape) }
    {
        let hall = HallSet::build(alloc, shape)?;
        let brackets = BracketTable::build(alloc, &hall)?;
        match DynkinTable::build(alloc, &hall, &brackets) {
            Ok(dynkin) => Ok(Tables {
                hall,
                brackets,
                dynkin,
            }),
            Err(fault) => Err(fault),
        }
    }

    /// The shape whose tables these are.
    pub fn shape(&self) -> Shape
        ensures value { result ≡ self.now }
        ensures light { AreLight self.now }
    {
        self.hall.shape()
    }

    /// The Hall set.
    pub fn hall(&self) -> &HallSet
        ensures { result.now ≡ self.now }
    {
        &self.hall
    }

    /// The brackets of its members.
    pub fn brackets(&self) -> &BracketTable
        ensures { result.now ≡ self.now }
    {
        &self.brackets
    }

    /// The images of the words.
    pub fn dynkin(&self) -> &DynkinTable
        ensures value { result.now ≡ self.now }
        ensures light { AreLight self.now }
    {
        &self.dynkin
    }
}
