//! The two maps of the rows: by place and by name.
ghost use Rattle.std.specs.Prelude.{◌≡◌, ◌<◌, ◌≤◌, None, All, OnOk, OnErr, IfOk, length, string_bytes};
ghost use Rattle.std.specs.Option.{option_map};
ghost use Rattle.std.specs.BTreeMap.{values};
ghost use Rattle.definitions.specs.Rows.{with_row, rows_in, moves_of};
ghost use Rattle.definitions.specs.Signature.{weight};
ghost use Rattle.increments.specs.Edits.{row_of, tick_of, with_move, without};
ghost use Rattle.increments.specs.Tables.{AreTied, place_of};

use crate::name::Name;
use crate::row::{Row, RowList};
use indexmap::IndexMap;
use std::alloc::Global;
use std::collections::BTreeMap;
use words::{Memory, Move};

/// Where a row stands: its tick and its birth.
pub type Place = (u64, u64);
/// The rows in the order of their places.
pub type ByPlace = BTreeMap<Place, Row>;
/// The places of the rows by name.
pub type ByName = IndexMap<String, Place>;

/// Where the row of a name stands.
pub fn place_at(rows: &ByPlace, names: &ByName, name: &str) -> Option<Place>
    requires { AreTied rows.now names.now }
    ensures { result ≡ option_map place_of (row_of name.now (values rows.now)) }
{
    names.get(name).copied()
}

/// A new row, which is younger than the others of its tick and whose name isn't live.
pub fn insert_row(
    rows: &mut ByPlace,
    names: &mut ByName,
    key: String,
    place: Place,
    row: Row,
) -> Result<(), Memory>
    requires tied { AreTied rows.old names.old }
    requires place { place ≡ place_of row }
    requires key { string_bytes key ≡ row.name }
    requires new { row_of row.name (values rows.old) ≡ None }
    requires birth { All (λ r. r.tick ≡ row.tick → r.birth < row.birth) (values rows.old) }
    ensures ok { OnOk result (values rows.new ≡ with_row row (values rows.old)) }
    ensures err { OnErr result (values rows.new ≡ values rows.old) }
    ensures tied { AreTied rows.new names.new }
{
    names.reserve(1)?;
    rows.insert(place, row)?;
    match names.insert(key, place) {
        Ok(_) => Ok(()),
        Err(_) => unreachable!(),
    }
}

/// A new row of copies of this name and move.
pub fn insert_copy(
    alloc: Global,
    rows: &mut ByPlace,
    names: &mut ByName,
    name: &Name,
    tick: u64,
    x: &Move,
    birth: u64,
) -> Result<(), Memory>
    requires tied { AreTied rows.old names.old }
    requires new { row_of name.now (values rows.old) ≡ None }
    requires birth { All (λ r. r.tick ≡ tick → r.birth < birth) (values rows.old) }
    ensures ok { OnOk result (values rows.new ≡ with_row (record { name = name.now; tick = tick; birth = birth; x = x.now }) (values rows.old)) }
    ensures err { OnErr result (values rows.new ≡ values rows.old) }
    ensures tied { AreTied rows.new names.new }
{
    let key = String::from_str(alloc, name.text())?;
    let row = Row::new(name.copy()?, tick, birth, x.copy()?);
    insert_row(rows, names, key, (tick, birth), row)
}

/// A new row that is equal to this one.
pub fn insert_equal(
    alloc: Global,
    rows: &mut ByPlace,
    names: &mut ByName,
    row: &Row,
) -> Result<(), Memory>
    requires tied { AreTied rows.old names.old }
    requires new { row_of row.now.name (values rows.old) ≡ None }
    requires birth { All (λ r. r.tick ≡ row.now.tick → r.birth < row.now.birth) (values rows.old) }
    ensures ok { OnOk result (values rows.new ≡ with_row row.now (values rows.old)) }
    ensures err { OnErr result (values rows.new ≡ values rows.old) }
    ensures tied { AreTied rows.new names.new }
{
    let key = String::from_str(alloc, row.name().text())?;
    let place = (row.tick(), row.birth());
    insert_row(rows, names, key, place, row.copy()?)
}

/// Another move for the row of a name, which answers its tick.
pub fn correct_row(rows: &mut ByPlace, names: &ByName, name: &str, x: Move) -> Option<u64>
    requires { AreTied rows.old names.now }
    ensures tick { result ≡ tick_of name.now (values rows.old) }
    ensures rows { values rows.new ≡ with_move name.now x (values rows.old) }
    ensures tied { AreTied rows.new names.now }
{
    let place = place_at(rows, names, name)?;
    let row = rows.get_mut(&place)?;
    row.correct(x);
    Some(place.0)
}

/// Takes the row of a name out, and answers its tick.
pub fn remove_row(rows: &mut ByPlace, names: &mut ByName, name: &str) -> Option<u64>
    requires { AreTied rows.old names.old }
    ensures tick { result ≡ tick_of name.now (values rows.old) }
    ensures rows { values rows.new ≡ without name.now (values rows.old) }
    ensures tied { AreTied rows.new names.new }
{
    let place = names.swap_remove(name)?;
    rows.remove(&place);
    Some(place.0)
}

/// How many rows lie in `from .. to`.
pub fn count_between(rows: &ByPlace, names: &ByName, from: u64, to: u64) -> u64
    requires tied { AreTied rows.now names.now }
    requires forward { from ≤ to }
    ensures { result ≡ length (rows_in from to (values rows.now)) }
{
    rows.range((from, 0)..(to, 0)).count() as u64
}

/// The weight of the rows in `from .. to`.
pub fn weight_between(rows: &ByPlace, names: &ByName, from: u64, to: u64) -> u128
    requires tied { AreTied rows.now names.now }
    requires forward { from ≤ to }
    ensures { result ≡ weight (moves_of (rows_in from to (values rows.now))) }
{
    let mut total: u128 = 0;
    for (_place, row) in rows.range((from, 0)..(to, 0)) {
        total += row.x().weight();
    }
    total
}

/// Equal rows to those in `from .. to`.
pub fn copies_between(
    alloc: Global,
    rows: &ByPlace,
    names: &ByName,
    from: u64,
    to: u64,
) -> Result<RowList, Memory>
    requires tied { AreTied rows.now names.now }
    requires forward { from ≤ to }
    ensures { IfOk result (λ list. list ≡ rows_in from to (values rows.now)) }
{
    let mut list = Vec::new(alloc);
    for (_place, row) in rows.range((from, 0)..(to, 0)) {
        list.push(row.copy()?)?;
    }
    Ok(RowList::of(list))
}

/// Equal maps.
pub fn copy_tables(
    alloc: Global,
    rows: &ByPlace,
    names: &ByName,
) -> Result<(ByPlace, ByName), Memory>
    requires { AreTied rows.now names.now }
    ensures rows { IfOk result (λ copy. values copy.0 ≡ values rows.now) }
    ensures tied { IfOk result (λ copy. AreTied copy.0 copy.1) }
{
    let mut places = BTreeMap::new(alloc);
    let mut keys = IndexMap::new(alloc);
    for (_place, row) in rows {
        insert_equal(alloc, &mut places, &mut keys, row)?;
    }
    Ok((places, keys))
}
