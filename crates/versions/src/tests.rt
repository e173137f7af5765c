ghost use Rattle.std.specs.Prelude.{◌<◌, ◌^◌, IfOk};
ghost use Rattle.definitions.specs.Moves.{IsMove};

use crate::{Edit, EditLog, EditReply, Stream};
use dyadic::Node;
use increments::{Name, Rows};
use std::alloc::Global;
use std::test::Fail;
use words::{Entries, Memory, Move, Shape};

fn name(alloc: Global, text: &str) -> Result<Name, Memory> {
    Name::of(String::from_str(alloc, text)?)
}

/// The move of one entry, of the shape (1, 1).
fn single(alloc: Global, shape: Shape, entry: i64) -> Result<Move, Fail>
    ensures { IfOk result (λ x. IsMove shape x) }
{
    let mut parts = Vec::new(alloc);
    parts.push(Entries::of(Vec::from_slice(alloc, &[entry])?))?;
    Ok(Move::of(alloc, shape, parts)?.ok_or("refused")?)
}

fn append(
    alloc: Global,
    stream: &mut Stream,
    text: &str,
    tick: u64,
    entry: i64,
) -> Result<EditReply, Fail>
    requires { tick < 2 ^ 32 }
{
    let x = single(alloc, stream.log().shape(), entry)?;
    let name = name(alloc, text)?;
    Ok(stream.edit(alloc, &Edit::Append { name, tick, x })?)
}

fn correct(alloc: Global, stream: &mut Stream, text: &str, entry: i64) -> Result<EditReply, Fail> {
    let x = single(alloc, stream.log().shape(), entry)?;
    let name = name(alloc, text)?;
    Ok(stream.edit(alloc, &Edit::Correct { name, x })?)
}

fn remove(alloc: Global, stream: &mut Stream, text: &str) -> Result<EditReply, Fail> {
    let name = name(alloc, text)?;
    Ok(stream.edit(alloc, &Edit::Remove { name })?)
}

/// The births of the rows, in their order.
fn births(alloc: Global, rows: &Rows) -> Result<Vec<u64>, Fail> {
    let list = rows.copy_in(alloc, 0, 4294967296)?;
    let mut births = Vec::new(alloc);
    for row in list.list() {
        births.push(row.birth())?;
    }
    Ok(births)
}

#[test]
fn one_edit(rt: HostRuntime) -> Result<(), Fail> {
    let alloc = rt.alloc();
    let shape = Shape::new(1, 1)?;
    let mut log = EditLog::new(alloc, shape);
    let edit = Edit::Append {
        name: name(alloc, "a")?,
        tick: 5,
        x: single(alloc, shape, 7)?,
    };
    let version = log.commit(alloc, &edit, 5)?;
    assert_eq!(rt; version, 1);
    assert_eq!(rt; log.len(), 1);
    assert_eq!(rt; log.rows_at(alloc, 0)?.len(), 0);
    assert_eq!(rt; log.rows_at(alloc, 1)?.len(), 1);
    let whole = Node::new(0, -16).ok_or("no node")?;
    assert_eq!(rt; log.touched_since(0, whole), Some(1));
    assert_eq!(rt; log.since(whole, 1), 1);
    assert_eq!(rt; log.since(whole, 0), 0);
    let half = log.node_at(whole, 1).left().ok_or("no half")?;
    assert_eq!(rt; (half.since(), half.count()), (1, 1));
    assert_eq!(rt; half.copy(alloc)?.list().len(), 1);
    Ok(())
}

#[test]
fn a_row_removed_and_appended(rt: HostRuntime) -> Result<(), Fail> {
    let alloc = rt.alloc();
    let mut stream = Stream::new(alloc, Shape::new(1, 1)?);
    append(alloc, &mut stream, "a", 5, 1)?;
    append(alloc, &mut stream, "b", 5, 2)?;
    assert_eq!(rt; remove(alloc, &mut stream, "a")?, EditReply::Done(3));
    assert_eq!(rt; append(alloc, &mut stream, "a", 5, 3)?, EditReply::Done(4));
    assert_eq!(rt; correct(alloc, &mut stream, "a", 9)?, EditReply::Done(5));
    assert_eq!(rt; births(alloc, stream.rows())?.as_slice(), [2, 4].as_slice());
    assert_eq!(rt; stream.rows().weight_in(5, 6), 11);
    Ok(())
}

#[test]
fn refused_edits(rt: HostRuntime) -> Result<(), Fail> {
    let alloc = rt.alloc();
    let mut stream = Stream::new(alloc, Shape::new(1, 1)?);
    append(alloc, &mut stream, "a", 5, 1)?;
    assert_eq!(rt;
        append(alloc, &mut stream, "a", 6, 2)?,
        EditReply::NameTaken(1)
    );
    assert_eq!(rt; correct(alloc, &mut stream, "b", 2)?, EditReply::NoRow(1));
    assert_eq!(rt; remove(alloc, &mut stream, "b")?, EditReply::NoRow(1));
    assert_eq!(rt; stream.version(), 1);
    Ok(())
}

#[test]
fn rows_near_a_version(rt: HostRuntime) -> Result<(), Fail> {
    let alloc = rt.alloc();
    let mut stream = Stream::new(alloc, Shape::new(1, 1)?);
    append(alloc, &mut stream, "a", 5, 1)?;
    for entry in 0..1029 {
        correct(alloc, &mut stream, "a", entry)?;
    }
    let log = stream.log();
    for (v, near, count) in [(1023, 0, 0), (1024, 1024, 1), (1030, 1024, 1)] {
        if v > log.len() {
            return Err("too few versions".into());
        }
        let (u, rows) = log.rows_near(v);
        assert_eq!(rt; u, near);
        assert_eq!(rt; rows.count_in(0, 4294967296), count);
    }
    Ok(())
}
