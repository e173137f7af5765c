//! The rows after a list of edits.
ghost use Rattle.std.specs.Prelude.{◌≡◌, ◌<◌, All, true, OnOk, OnErr, IfOk};
ghost use Rattle.versions.specs.Versions.{IsEdit, IsLog, accepts, edited, current_rows};

use crate::edit::Edit;
use crate::log::Accepted;
use increments::{RowFault, Rows};
use std::alloc::Global;
use words::{Memory, Shape};

/// The rows take an edit that they accept, which makes this version.
fn take_next(alloc: Global, rows: &mut Rows, e: &Edit, version: u64) -> Result<(), Memory>
    requires edit { IsEdit rows.old.extent e.now }
    requires accepted { accepts rows.old.rows e.now ≡ true }
    requires births { All (λ row. row.birth < version) rows.old.rows }
    ensures ok { OnOk result (rows.new ≡ record { extent = rows.old.extent; rows = edited version e.now rows.old.rows }) }
    ensures err { OnErr result (rows.new ≡ rows.old) }
{
    match e {
        Edit::Append { name, tick, x } => match rows.append(alloc, name, *tick, x, version) {
            Ok(()) => {}
            Err(RowFault::NameTaken) => unreachable!(),
            Err(RowFault::Memory) => return Err(Memory),
        },
        Edit::Correct { name, x } => {
            rows.correct(name, x.copy()?);
        }
        Edit::Remove { name } => {
            rows.remove(name);
        }
    }
    Ok(())
}

/// The rows after these edits, from none.
pub fn replay(alloc: Global, shape: Shape, edits: &[Accepted]) -> Result<Rows, Memory>
    requires { IsLog (record { extent = shape; edits = edits.now }) }
    ensures { IfOk result (λ rows. rows ≡ record { extent = shape; rows = current_rows edits.now }) }
{
    let mut rows = Rows::new(alloc, shape);
    for (i, accepted) in edits.iter().enumerate() {
        take_next(alloc, &mut rows, &accepted.edit, i as u64 + 1)?;
    }
    Ok(rows)
}
