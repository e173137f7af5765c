ghost use Rattle.std.specs.Prelude.{◌≡◌, ◌≤◌, ◌<◌, ◌^◌, ◌↔◌, [], All, IsSome, IsTrue, OnOk, OnErr, IfOk, IfNone, Err, length};
ghost use Rattle.definitions.specs.Rows.{with_row, rows_in, moves_of, is_live};
ghost use Rattle.definitions.specs.Signature.{weight};
ghost use Rattle.definitions.specs.Moves.{IsMove};
ghost use Rattle.std.specs.Option.{option_map};
ghost use Rattle.increments.specs.Edits.{IsInOrder, row_of, tick_of as tick_in, with_move, without};
ghost use Rattle.increments.specs.Tables.{place_of as place_in_rows};

use crate::fault::RowFault;
use crate::name::Name;
use crate::row::RowList;
use crate::tables::{
    ByName, ByPlace, copies_between, copy_tables, correct_row, count_between, insert_copy,
    place_at, remove_row, weight_between,
};
use indexmap::IndexMap;
use std::alloc::Global;
use std::collections::BTreeMap;
use std::marker::Model;
use words::{Memory, Move, Shape};

/// The live rows of a stream, seen as the list of them in the order of (tick, birth). Their moves are of one shape.
#[derive(Drop)]
pub struct Rows {
    shape: Shape,
    rows: ByPlace,
    names: ByName,
}

impl Model for Rows {
    ghost use Rattle.std.specs.Prelude.{All};
    ghost use Rattle.std.specs.BTreeMap.{values};
    ghost use Rattle.definitions.specs.Moves.{IsMove};
    ghost use Rattle.increments.specs.Edits.{RowsValue};
    ghost use Rattle.increments.specs.Tables.{AreTied};

    ghost Value = { RowsValue };

    ghost view = { λ r. record { extent = r.shape; rows = values r.rows } };

    ghost invariant = { λ r. AreTied r.rows r.names × All (λ row. IsMove r.shape row.x) (values r.rows) };
}

impl Rows {
    /// No rows.
    pub fn new(alloc: Global, shape: Shape) -> Rows
        ensures { result ≡ record { extent = shape; rows = [] } }
    {
        Rows {
            shape,
            rows: BTreeMap::new(alloc),
            names: IndexMap::new(alloc),
        }
    }

    /// The shape of the moves.
    pub fn shape(&self) -> Shape
        ensures value { result ≡ self.now.extent }
        ensures moves { All (λ row. IsMove self.now.extent row.x) self.now.rows }
        ensures order { IsInOrder self.now.rows }
    {
        self.shape
    }

    /// Equal rows.
    pub fn copy(&self, alloc: Global) -> Result<Rows, Memory>
        ensures { IfOk result (λ rows. rows ≡ self.now) }
    {
        let (rows, names) = copy_tables(alloc, &self.rows, &self.names)?;
        Ok(Rows {
            shape: self.shape,
            rows,
            names,
        })
    }

    /// How many rows there are.
    pub fn len(&self) -> u64
        ensures value { result ≡ length self.now.rows }
        ensures bound { result < 2 ^ 63 }
    {
        self.rows.len() as u64
    }

    /// Whether there are none.
    pub fn is_empty(&self) -> bool
        ensures { IsTrue result ↔ (self.now.rows ≡ []) }
    {
        self.rows.is_empty()
    }

    /// A new row, younger than all others. A refusal leaves the rows unchanged.
    pub fn append(
        &mut self,
        alloc: Global,
        name: &Name,
        tick: u64,
        x: &Move,
        birth: u64,
    ) -> Result<(), RowFault>
        requires tick { tick < 2 ^ 32 }
        requires shape { IsMove self.old.extent x.now }
        requires birth { All (λ row. row.birth < birth) self.old.rows }
        ensures ok { OnOk result (self.new ≡ record { extent = self.old.extent; rows = with_row (record { name = name.now; tick = tick; birth = birth; x = x.now }) self.old.rows }) }
        ensures taken { (result ≡ Err RowFault.NameTaken) ↔ IsTrue (is_live name.now self.old.rows) }
        ensures err { OnErr result (self.new ≡ self.old) }
    {
        if place_at(&self.rows, &self.names, name.text()).is_some() {
            return Err(RowFault::NameTaken);
        }
        insert_copy(alloc, &mut self.rows, &mut self.names, name, tick, x, birth)?;
        Ok(())
    }

    /// Another move for the row of this name, which keeps its tick and birth. Answers the tick, `None` where no row has the name.
    /// Takes no memory.
    pub fn correct(&mut self, name: &Name, x: Move) -> Option<u64>
        requires { IsMove self.old.extent x }
        ensures tick { result ≡ tick_in name.now self.old.rows }
        ensures live { IsSome result ↔ IsTrue (is_live name.now self.old.rows) }
        ensures rows { self.new ≡ record { extent = self.old.extent; rows = with_move name.now x self.old.rows } }
        ensures none { IfNone result (self.new ≡ self.old) }
    {
        correct_row(&mut self.rows, &self.names, name.text(), x)
    }

    /// Takes the row of this name out. Answers its tick, `None` where no row has the name. Takes no memory.
    pub fn remove(&mut self, name: &Name) -> Option<u64>
        ensures tick { result ≡ tick_in name.now self.old.rows }
        ensures live { IsSome result ↔ IsTrue (is_live name.now self.old.rows) }
        ensures rows { self.new ≡ record { extent = self.old.extent; rows = without name.now self.old.rows } }
        ensures none { IfNone result (self.new ≡ self.old) }
    {
        remove_row(&mut self.rows, &mut self.names, name.text())
    }

    /// The tick of the row of this name, `None` where no row has it.
    pub fn tick_of(&self, name: &Name) -> Option<u64>
        ensures tick { result ≡ tick_in name.now self.now.rows }
        ensures live { IsSome result ↔ IsTrue (is_live name.now self.now.rows) }
    {
        let place = place_at(&self.rows, &self.names, name.text())?;
        Some(place.0)
    }

    /// The tick and the birth of the row of this name, `None` where no row has it.
    pub fn place_of(&self, name: &Name) -> Option<(u64, u64)>
        ensures { result ≡ option_map place_in_rows (row_of name.now self.now.rows) }
    {
        place_at(&self.rows, &self.names, name.text())
    }

    /// How many rows lie in `from .. to`.
    pub fn count_in(&self, from: u64, to: u64) -> u64
        requires forward { from ≤ to }
        requires end { to ≤ 2 ^ 32 }
        ensures { result ≡ length (rows_in from to self.now.rows) }
    {
        count_between(&self.rows, &self.names, from, to)
    }

    /// The weight of the rows in `from .. to`.
    pub fn weight_in(&self, from: u64, to: u64) -> u128
        requires forward { from ≤ to }
        requires end { to ≤ 2 ^ 32 }
        ensures { result ≡ weight (moves_of (rows_in from to self.now.rows)) }
    {
        weight_between(&self.rows, &self.names, from, to)
    }

    /// Equal rows to those in `from .. to`.
    pub fn copy_in(&self, alloc: Global, from: u64, to: u64) -> Result<RowList, Memory>
        requires forward { from ≤ to }
        requires end { to ≤ 2 ^ 32 }
        ensures rows { IfOk result (λ list. list ≡ rows_in from to self.now.rows) }
        ensures moves { IfOk result (λ list. All (λ row. IsMove self.now.extent row.x) list) }
        ensures order { IfOk result IsInOrder }
    {
        copies_between(alloc, &self.rows, &self.names, from, to)
    }
}
