ghost use Rattle.std.specs.Prelude.{◌≡◌, IfOk, IfErr};
ghost use Rattle.basis_cell.specs.Faults.{IsTablesFault};
ghost use Rattle.basis_cell.specs.Holdings.{extent_of};

use crate::tables::Tables;
use lie_bracket::TableFault;
use once_cell::race::OnceBox;
use std::alloc::Global;
use words::Shape;

/// Tables that are lent by a cell, or the caller's own.
#[derive(Drop)]
pub enum Held<'a> {
    Shared(&'a Tables),
    Own(Box<Tables>),
}

impl<'a> Held<'a> {
    /// The tables.
    pub fn get(&self) -> &Tables
        ensures { result.now ≡ extent_of self.now }
    {
        match self {
            Held::Shared(tables) => tables,
            Held::Own(tables) => tables,
        }
    }
}

/// A place for the tables of one shape, which are built at first use. Callers that race may each build them; one result is kept.
#[derive(Drop)]
pub struct BasisCell {
    tables: OnceBox<Tables>,
}

/// The tables of a shape, in a box.
fn boxed_tables(alloc: Global, shape: Shape) -> Result<Box<Tables>, TableFault>
    ensures tables { IfOk result (λ tables. tables.value ≡ shape) }
    ensures fault { IfErr result (IsTablesFault shape) }
{
    let tables = Tables::build(alloc, shape)?;
    match Box::new(alloc, tables) {
        Ok(tables) => Ok(tables),
        Err(_tables) => Err(TableFault::Memory),
    }
}

impl BasisCell {
    /// A cell without tables.
    pub fn new(alloc: Global) -> BasisCell {
        BasisCell {
            tables: OnceBox::new(alloc),
        }
    }

    /// The tables of a shape, which are built where the cell has none, or those of another shape.
    pub fn tables(&self, alloc: Global, shape: Shape) -> Result<Held<'_>, TableFault>
        ensures tables { IfOk result (λ held. extent_of held ≡ shape) }
        ensures fault { IfErr result (IsTablesFault shape) }
    {
        let shared = self
            .tables
            .get_or_try_init(move || boxed_tables(alloc, shape))?;
        if shared.shape() == shape {
            return Ok(Held::Shared(shared));
        }
        Ok(Held::Own(boxed_tables(alloc, shape)?))
    }
}
