ghost use Rattle.std.specs.Prelude.{IfOk};
ghost use Rattle.definitions.specs.Moves.{IsMove};

use crate::{Name, RowFault, Rows};
use std::alloc::Global;
use std::test::Fail;
use words::{Entries, Memory, Move, Shape};

fn name(alloc: Global, text: &str) -> Result<Name, Memory> {
    Name::of(String::from_str(alloc, text)?)
}

/// The move of one entry, of the shape (1, 1).
fn single(alloc: Global, shape: Shape, entry: i64) -> Result<Move, Fail>
    ensures { IfOk result (λ x. IsMove shape x) }
{
    let mut parts = Vec::new(alloc);
    parts.push(Entries::of(Vec::from_slice(alloc, &[entry])?))?;
    Ok(Move::of(alloc, shape, parts)?.ok_or("refused")?)
}

#[test]
fn one_row(rt: HostRuntime) -> Result<(), Fail> {
    let alloc = rt.alloc();
    let shape = Shape::new(1, 1)?;
    let a = name(alloc, "a")?;
    let b = name(alloc, "b")?;
    let seven = single(alloc, shape, 7)?;
    let mut rows = Rows::new(alloc, shape);
    assert_eq!(rt; rows.append(alloc, &a, 5, &seven, 1), Ok(()));
    assert_eq!(rt;
        rows.append(alloc, &a, 5, &seven, 2),
        Err(RowFault::NameTaken)
    );
    assert_eq!(rt; rows.correct(&a, single(alloc, shape, 9)?), Some(5));
    assert_eq!(rt; rows.correct(&b, seven), None);
    let list = rows.copy_in(alloc, 0, 6)?;
    assert_eq!(rt; list.list().len(), 1);
    for row in list.list() {
        assert_eq!(rt; row.name().text(), "a");
        assert_eq!(rt; row.tick(), 5);
        assert_eq!(rt; row.birth(), 1);
        assert_eq!(rt; row.x().part(1), [9].as_slice());
    }
    Ok(())
}

#[test]
fn removed_and_appended(rt: HostRuntime) -> Result<(), Fail> {
    let alloc = rt.alloc();
    let shape = Shape::new(1, 1)?;
    let a = name(alloc, "a")?;
    let b = name(alloc, "b")?;
    let one = single(alloc, shape, 1)?;
    let mut rows = Rows::new(alloc, shape);
    rows.append(alloc, &a, 5, &one, 1)?;
    rows.append(alloc, &b, 5, &one, 2)?;
    assert_eq!(rt; rows.remove(&a), Some(5));
    assert_eq!(rt; rows.remove(&a), None);
    assert_eq!(rt; rows.tick_of(&a), None);
    rows.append(alloc, &a, 5, &one, 4)?;
    assert_eq!(rt; rows.tick_of(&a), Some(5));
    let list = rows.copy_in(alloc, 5, 6)?;
    let mut births = Vec::new(alloc);
    for row in list.list() {
        births.push(row.birth())?;
    }
    assert_eq!(rt; births.as_slice(), [2, 4].as_slice());
    Ok(())
}

#[test]
fn rows_between_ticks(rt: HostRuntime) -> Result<(), Fail> {
    let alloc = rt.alloc();
    let shape = Shape::new(1, 1)?;
    let mut rows = Rows::new(alloc, shape);
    rows.append(
        alloc,
        &name(alloc, "b")?,
        131072,
        &single(alloc, shape, 8)?,
        1,
    )?;
    rows.append(
        alloc,
        &name(alloc, "a")?,
        65535,
        &single(alloc, shape, 1)?,
        2,
    )?;
    assert_eq!(rt; rows.count_in(65535, 131072), 1);
    assert_eq!(rt; rows.weight_in(65535, 131072), 1);
    assert_eq!(rt; rows.weight_in(65535, 131073), 9);
    let copy = rows.copy(alloc)?;
    assert_eq!(rt; copy.len(), 2);
    assert_eq!(rt; copy.tick_of(&name(alloc, "a")?), Some(65535));
    Ok(())
}
