ghost use Rattle.std.specs.Prelude.{◌≡◌, IfOk};

use crate::{RowsView, Timeline};
use dyadic::Node;
use increments::{Name, Row};
use std::alloc::Global;
use std::test::Fail;
use words::{Entries, Move, Shape};

/// A row of one entry.
fn row(alloc: Global, tick: u64, birth: u64, entry: i64) -> Result<Row, Fail>
    ensures tick { IfOk result (λ r. r.tick ≡ tick) }
    ensures birth { IfOk result (λ r. r.birth ≡ birth) }
{
    let shape = Shape::new(1, 1)?;
    let mut parts = Vec::new(alloc);
    parts.push(Entries::of(Vec::from_slice(alloc, &[entry])?))?;
    let x = Move::of(alloc, shape, parts)?.ok_or("refused")?;
    let name = Name::of(String::from_str(alloc, "a")?)?;
    Ok(Row::new(name, tick, birth, x))
}

#[test]
fn counts_and_weights_of_intervals(rt: HostRuntime) -> Result<(), Fail> {
    let alloc = rt.alloc();
    let mut line = Timeline::new(alloc);
    line.put(row(alloc, 131072, 1, 8)?)?;
    line.put(row(alloc, 65535, 2, 1)?)?;
    line.put(row(alloc, 131071, 3, 4)?)?;
    line.put(row(alloc, 65536, 4, 2)?)?;
    let v = line.version();
    assert_eq!(rt; v, 4);
    assert_eq!(rt; line.totals_in(65535, 131072, v).count, 3);
    assert_eq!(rt; line.totals_in(65535, 131072, v).weight, 7);
    assert_eq!(rt; line.totals_in(65536, 131073, v).weight, 14);
    assert_eq!(rt; line.totals_in(65535, 131072, v).since, 4);
    assert_eq!(rt; line.totals_in(65535, 131072, 2).count, 1);
    let rows = RowsView::of(&line, v);
    assert_eq!(rt; rows.count_in(65535, 131072), 3);
    assert_eq!(rt; rows.weight_in(65536, 131073), 14);
    Ok(())
}

#[test]
fn versions_that_touch_a_node(rt: HostRuntime) -> Result<(), Fail> {
    let alloc = rt.alloc();
    let mut line = Timeline::new(alloc);
    line.put(row(alloc, 131071, 1, 4)?)?;
    line.put(row(alloc, 65535, 2, 1)?)?;
    line.remove(131071, 1)?;
    let first = Node::new(0, 0).ok_or("none")?;
    let second = Node::new(1, 0).ok_or("none")?;
    assert_eq!(rt; line.since(first, 3), 2);
    assert_eq!(rt; line.since(second, 3), 3);
    assert_eq!(rt; line.since(second, 2), 1);
    assert_eq!(rt; line.since(first, 1), 0);
    assert_eq!(rt; line.touched_since(1, second), Some(3));
    assert_eq!(rt; line.touched_since(2, first), None);
    Ok(())
}

#[test]
fn rows_of_one_tick(rt: HostRuntime) -> Result<(), Fail> {
    let alloc = rt.alloc();
    let mut line = Timeline::new(alloc);
    line.put(row(alloc, 5, 1, 1)?)?;
    line.put(row(alloc, 5, 2, 2)?)?;
    line.put(row(alloc, 5, 1, 9)?)?;
    line.remove(5, 2)?;
    assert_eq!(rt; line.totals_in(5, 6, 2).weight, 3);
    assert_eq!(rt; line.totals_in(5, 6, 3).weight, 11);
    assert_eq!(rt; line.totals_in(5, 6, 4).weight, 9);
    assert_eq!(rt; line.totals_in(6, 7, 4).since, 0);
    let rows = line.copy_in(alloc, 0, 4294967296, 3)?;
    let mut births = Vec::new(alloc);
    for row in rows.list() {
        births.push(row.birth())?;
    }
    assert_eq!(rt; births.as_slice(), [1, 2].as_slice());
    Ok(())
}

#[test]
fn halves_of_a_node(rt: HostRuntime) -> Result<(), Fail> {
    let alloc = rt.alloc();
    let mut line = Timeline::new(alloc);
    line.put(row(alloc, 131071, 1, 4)?)?;
    line.put(row(alloc, 65535, 2, 1)?)?;
    line.put(row(alloc, 70000, 3, 2)?)?;
    line.remove(131071, 1)?;
    let node = line.node_view(Node::new(0, -1).ok_or("none")?, 4);
    assert_eq!(rt; (node.since(), node.count()), (4, 2));
    let first = node.left().ok_or("none")?;
    let second = node.right().ok_or("none")?;
    assert_eq!(rt; (first.since(), first.count()), (2, 1));
    assert_eq!(rt; (second.since(), second.count()), (4, 1));
    let later = second.right().ok_or("none")?;
    assert_eq!(rt; later.node(), Node::new(3, 1).ok_or("none")?);
    assert_eq!(rt; (later.since(), later.count()), (4, 0));
    let early = first.left().ok_or("none")?;
    assert_eq!(rt; (early.since(), early.count()), (0, 0));
    assert_eq!(rt; second.copy(alloc)?.list().len(), 1);
    let tick = line.node_view(Node::new(65535, 16).ok_or("none")?, 2);
    assert_eq!(rt; (tick.since(), tick.count()), (2, 1));
    assert!(rt; tick.left().is_none());
    Ok(())
}
