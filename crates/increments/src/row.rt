ghost use Rattle.std.specs.Prelude.{◌≡◌, IfOk};

use crate::name::Name;
use std::marker::Model;
use words::{Memory, Move};

/// A named move at a tick; its birth is the version that brought it.
#[derive(Drop)]
pub struct Row {
    name: Name,
    tick: u64,
    birth: u64,
    x: Move,
}

impl Model for Row {
    ghost use Rattle.definitions.specs.Rows.{RowValue};

    ghost Value = { RowValue };

    ghost view = { λ r. record { name = r.name; tick = r.tick; birth = r.birth; x = r.x } };
}

impl Row {
    /// The row of these parts.
    pub fn new(name: Name, tick: u64, birth: u64, x: Move) -> Row
        ensures { result ≡ record { name = name; tick = tick; birth = birth; x = x } }
    {
        Row {
            name,
            tick,
            birth,
            x,
        }
    }

    /// The name.
    pub fn name(&self) -> &Name
        ensures { result.now ≡ self.now.name }
    {
        &self.name
    }

    /// The tick, of 2 ^ -16.
    pub fn tick(&self) -> u64
        ensures { result ≡ self.now.tick }
    {
        self.tick
    }

    /// The version that brought the row.
    pub fn birth(&self) -> u64
        ensures { result ≡ self.now.birth }
    {
        self.birth
    }

    /// The move.
    pub fn x(&self) -> &Move
        ensures { result.now ≡ self.now.x }
    {
        &self.x
    }

    /// Another move in place of the row's.
    pub fn correct(&mut self, x: Move)
        ensures { self.new ≡ record self.old { x = x } }
    {
        self.x = x;
    }

    /// An equal row, which shares the name and the move of this one.
    pub fn copy(&self) -> Result<Row, Memory>
        ensures { IfOk result (λ row. row ≡ self.now) }
    {
        Ok(Row {
            name: self.name.copy()?,
            tick: self.tick,
            birth: self.birth,
            x: self.x.copy()?,
        })
    }
}

/// A list of rows.
#[derive(Drop)]
pub struct RowList {
    rows: Vec<Row>,
}

impl Model for RowList {
    ghost use Rattle.std.specs.Prelude.{List};
    ghost use Rattle.definitions.specs.Rows.{RowValue};

    ghost Value = { List RowValue };

    ghost view = { λ l. l.rows.items };
}

impl RowList {
    /// The list of these rows.
    pub fn of(rows: Vec<Row>) -> RowList
        ensures { result ≡ rows.items }
    {
        RowList { rows }
    }

    /// The rows.
    pub fn list(&self) -> &[Row]
        ensures { result.now ≡ self.now }
    {
        &self.rows
    }
}
