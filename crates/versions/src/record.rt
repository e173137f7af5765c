//! One edit more, in the log, the rows of each version and the current rows: in all of them or in none.
ghost use Rattle.std.specs.Prelude.{◌≡◌, ◌+◌, ◌<◌, ◌≤◌, ◌^◌, [], ◌∷◌, ◌++◌, length, None, IfSome, OnOk, OnErr};
ghost use Rattle.timeline.specs.Keys.{key_at, with_at};
ghost use Rattle.timeline.specs.Pasts.{with_version, current_rows as current_past};
ghost use Rattle.timeline.specs.Puts.{listed};
ghost use Rattle.versions.specs.Versions.{IsEdit, IsAccepted, current_rows, edited};
ghost use Rattle.versions.specs.Pasts.{past_of_log, log_with, IsKept};

use crate::edit::Edit;
use crate::log::Accepted;
use increments::{Name, Row, RowFault, Rows};
use std::alloc::Global;
use timeline::Timeline;
use words::{Memory, Move};

/// The next version: the row at that tick with that birth is this one, or goes.
fn change(line: &mut Timeline, tick: u64, birth: u64, row: Option<Row>) -> Result<(), Memory>
    requires tick { tick < 2 ^ 32 }
    requires birth { birth ≤ length line.old.ticks + 1 }
    requires old { row ≡ None → birth ≤ length line.old.ticks }
    requires at { IfSome row (λ r. r.tick ≡ tick) }
    requires born { IfSome row (λ r. r.birth ≡ birth) }
    ensures ok { OnOk result (line.new ≡ with_version line.old tick (with_at (key_at tick birth) (listed row) (current_past line.old))) }
    ensures err { OnErr result (line.new ≡ line.old) }
{
    match row {
        Some(row) => line.put(row),
        None => line.remove(tick, birth),
    }
}

/// The next version in the log and in the rows of each version.
fn keep(
    edits: &mut Vec<Accepted>,
    line: &mut Timeline,
    e: &Edit,
    tick: u64,
    birth: u64,
    row: Option<Row>,
) -> Result<(), Memory>
    requires past { line.old ≡ past_of_log edits.old.items }
    requires tick { tick < 2 ^ 32 }
    requires birth { birth ≤ length edits.old.items + 1 }
    requires old { row ≡ None → birth ≤ length edits.old.items }
    requires at { IfSome row (λ r. r.tick ≡ tick) }
    requires born { IfSome row (λ r. r.birth ≡ birth) }
    requires change { edited (length edits.old.items + 1) e.now (current_rows edits.old.items) ≡ with_at (key_at tick birth) (listed row) (current_rows edits.old.items) }
    ensures past { line.new ≡ past_of_log edits.new.items }
    ensures ok { OnOk result (edits.new.items ≡ edits.old.items ++ (record { edit = e.now; tick = tick }) ∷ []) }
    ensures err { OnErr result (edits.new.items ≡ edits.old.items) }
{
    let count = edits.len();
    edits.push(Accepted {
        edit: e.copy()?,
        tick,
    })?;
    match change(line, tick, birth, row) {
        Ok(()) => Ok(()),
        Err(memory) => {
            edits.truncate(count);
            Err(memory)
        }
    }
}

/// A new row. The current rows take it first, since to remove it again takes no memory.
fn append(
    alloc: Global,
    edits: &mut Vec<Accepted>,
    line: &mut Timeline,
    rows: &mut Rows,
    e: &Edit,
    name: &Name,
    tick: u64,
    x: &Move,
) -> Result<(), Memory>
    requires kept { IsKept (log_with rows.old.extent edits.old.items) line.old rows.old }
    requires edit { IsEdit rows.old.extent e.now }
    requires accepted { IsAccepted rows.old.rows (record { edit = e.now; tick = tick }) }
    requires tick { tick < 2 ^ 32 }
    requires room { length edits.old.items + 1 < 2 ^ 31 }
    requires parts { e.now ≡ Edit.Append name.now tick x.now }
    ensures kept { IsKept (log_with rows.old.extent edits.new.items) line.new rows.new }
    ensures ok { OnOk result (edits.new.items ≡ edits.old.items ++ (record { edit = e.now; tick = tick }) ∷ []) }
    ensures err { OnErr result (edits.new.items ≡ edits.old.items) }
{
    let version = edits.len() as u64 + 1;
    let row = Row::new(name.copy()?, tick, version, x.copy()?);
    match rows.append(alloc, name, tick, x, version) {
        Ok(()) => {}
        Err(RowFault::NameTaken) => unreachable!(),
        Err(RowFault::Memory) => return Err(Memory),
    }
    match keep(edits, line, e, tick, version, Some(row)) {
        Ok(()) => Ok(()),
        Err(memory) => {
            rows.remove(name);
            Err(memory)
        }
    }
}

/// Another move for a row. The current rows take it last, since that takes no memory.
fn correct(
    edits: &mut Vec<Accepted>,
    line: &mut Timeline,
    rows: &mut Rows,
    e: &Edit,
    name: &Name,
    tick: u64,
    x: &Move,
) -> Result<(), Memory>
    requires kept { IsKept (log_with rows.old.extent edits.old.items) line.old rows.old }
    requires edit { IsEdit rows.old.extent e.now }
    requires accepted { IsAccepted rows.old.rows (record { edit = e.now; tick = tick }) }
    requires tick { tick < 2 ^ 32 }
    requires room { length edits.old.items + 1 < 2 ^ 31 }
    requires parts { e.now ≡ Edit.Correct name.now x.now }
    ensures kept { IsKept (log_with rows.old.extent edits.new.items) line.new rows.new }
    ensures ok { OnOk result (edits.new.items ≡ edits.old.items ++ (record { edit = e.now; tick = tick }) ∷ []) }
    ensures err { OnErr result (edits.new.items ≡ edits.old.items) }
{
    let Some(place) = rows.place_of(name) else {
        unreachable!()
    };
    let row = Row::new(name.copy()?, tick, place.1, x.copy()?);
    let x = x.copy()?;
    keep(edits, line, e, tick, place.1, Some(row))?;
    rows.correct(name, x);
    Ok(())
}

/// A row goes. The current rows lose it last, since that takes no memory.
fn remove(
    edits: &mut Vec<Accepted>,
    line: &mut Timeline,
    rows: &mut Rows,
    e: &Edit,
    name: &Name,
    tick: u64,
) -> Result<(), Memory>
    requires kept { IsKept (log_with rows.old.extent edits.old.items) line.old rows.old }
    requires edit { IsEdit rows.old.extent e.now }
    requires accepted { IsAccepted rows.old.rows (record { edit = e.now; tick = tick }) }
    requires tick { tick < 2 ^ 32 }
    requires room { length edits.old.items + 1 < 2 ^ 31 }
    requires parts { e.now ≡ Edit.Remove name.now }
    ensures kept { IsKept (log_with rows.old.extent edits.new.items) line.new rows.new }
    ensures ok { OnOk result (edits.new.items ≡ edits.old.items ++ (record { edit = e.now; tick = tick }) ∷ []) }
    ensures err { OnErr result (edits.new.items ≡ edits.old.items) }
{
    let Some(place) = rows.place_of(name) else {
        unreachable!()
    };
    keep(edits, line, e, tick, place.1, None)?;
    rows.remove(name);
    Ok(())
}

/// An edit that the current rows accept, with the tick of its row.
pub fn take_edit(
    alloc: Global,
    edits: &mut Vec<Accepted>,
    line: &mut Timeline,
    rows: &mut Rows,
    e: &Edit,
    tick: u64,
) -> Result<(), Memory>
    requires kept { IsKept (log_with rows.old.extent edits.old.items) line.old rows.old }
    requires edit { IsEdit rows.old.extent e.now }
    requires accepted { IsAccepted rows.old.rows (record { edit = e.now; tick = tick }) }
    requires tick { tick < 2 ^ 32 }
    requires room { length edits.old.items + 1 < 2 ^ 31 }
    ensures kept { IsKept (log_with rows.old.extent edits.new.items) line.new rows.new }
    ensures ok { OnOk result (edits.new.items ≡ edits.old.items ++ (record { edit = e.now; tick = tick }) ∷ []) }
    ensures err { OnErr result (edits.new.items ≡ edits.old.items) }
{
    match e {
        Edit::Append { name, x, .. } => append(alloc, edits, line, rows, e, name, tick, x),
        Edit::Correct { name, x } => correct(edits, line, rows, e, name, tick, x),
        Edit::Remove { name } => remove(edits, line, rows, e, name, tick),
    }
}
