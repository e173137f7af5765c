ghost use Rattle.std.specs.Prelude.{◌≡◌, IfOk};
ghost use Rattle.definitions.specs.Moves.{IsMove};
ghost use Rattle.versions.specs.Versions.{IsEdit};

use crate::{FeedFault, Watches};
use increments::Name;
use std::alloc::Global;
use std::process::Abort;
use std::test::Fail;
use versions::Edit;
use words::{Entries, Move, Shape};

type Fed = Result<u64, FeedFault>;

/// An edit of a row with one entry.
#[derive(Clone, Copy)]
enum Given {
    Append(&'static str, u64),
    Correct(&'static str),
    Remove(&'static str),
}

/// The move of one entry, of the shape (1, 1).
fn single(alloc: Global, shape: Shape) -> Result<Move, Fail>
    ensures { IfOk result (λ x. IsMove shape x) }
{
    let mut parts = Vec::new(alloc);
    parts.push(Entries::of(Vec::from_slice(alloc, &[7])?))?;
    Ok(Move::of(alloc, shape, parts)?.ok_or("refused")?)
}

fn name(alloc: Global, text: &str) -> Result<Name, Fail> {
    Ok(Name::of(String::from_str(alloc, text)?)?)
}

fn edit_of(alloc: Global, shape: Shape, given: Given) -> Result<Edit, Fail>
    ensures { IfOk result (IsEdit shape) }
{
    match given {
        Given::Append(text, tick) => {
            if tick >= 4_294_967_296 {
                return Err("past the end".into());
            }
            let name = name(alloc, text)?;
            let x = single(alloc, shape)?;
            Ok(Edit::Append { name, tick, x })
        }
        Given::Correct(text) => {
            let name = name(alloc, text)?;
            let x = single(alloc, shape)?;
            Ok(Edit::Correct { name, x })
        }
        Given::Remove(text) => Ok(Edit::Remove {
            name: name(alloc, text)?,
        }),
    }
}

fn feed(alloc: Global, all: &mut Watches, shape: Shape, given: Given) -> Result<Fed, Fail>
    requires { all.old.log.extent ≡ shape }
    ensures { all.new.log.extent ≡ shape }
{
    let edit = edit_of(alloc, shape, given)?;
    Ok(all.feed(alloc, &edit))
}

fn add(alloc: Global, all: &mut Watches, shape: Shape, a: u64, b: u64) -> Result<u32, Fail>
    requires { all.old.log.extent ≡ shape }
    ensures { all.new.log.extent ≡ shape }
{
    if all.len() == 64 || all.version() != 0 || a > b || b > 4_294_967_296 {
        return Err("no watch".into());
    }
    Ok(all.add(alloc, a, b)?)
}

/// Watches of these intervals, with their numbers from 1.
fn watching(alloc: Global, shape: Shape, intervals: &[(u64, u64)]) -> Result<Watches, Fail>
    ensures { IfOk result (λ all. all.log.extent ≡ shape) }
{
    let mut all = Watches::new(alloc, shape)?;
    for (a, b) in intervals {
        add(alloc, &mut all, shape, *a, *b)?;
    }
    Ok(all)
}

/// The list of a watch.
fn listed(all: &Watches, i: u32) -> Result<&[u64], Fail> {
    if i == 0 || i > all.len() {
        return Err("no watch".into());
    }
    Ok(all.versions_of(i))
}

/// Feeds edits to watches of intervals, and compares the answers, and then the lists of some watches.
fn tried(
    rt: &impl Abort,
    alloc: Global,
    intervals: &[(u64, u64)],
    edits: &[(Given, Fed)],
    lists: &[(u32, &[u64])],
) -> Result<(), Fail> {
    let shape = Shape::new(1, 1)?;
    let mut all = watching(alloc, shape, intervals)?;
    for (given, due) in edits {
        assert_eq!(rt; feed(alloc, &mut all, shape, *given)?, *due);
    }
    for (i, versions) in lists {
        assert_eq!(rt; listed(&all, *i)?, *versions, "of watch {i}");
    }
    Ok(())
}

#[test]
fn one_watch(rt: HostRuntime) -> Result<(), Fail> {
    let edits = [
        (Given::Append("a", 32768), Ok(1)),
        (Given::Append("a", 32768), Err(FeedFault::NameTaken(1))),
        (Given::Remove("z"), Err(FeedFault::NoRow(1))),
        (Given::Append("b", 65536), Ok(2)),
        (Given::Correct("a"), Ok(3)),
        (Given::Remove("b"), Ok(4)),
    ];
    tried(&rt, rt.alloc(), &[(0, 65536)], &edits, &[(1, &[1, 3])])
}

#[test]
fn several_watches(rt: HostRuntime) -> Result<(), Fail> {
    let edits = [
        (Given::Append("a", 0), Ok(1)),
        (Given::Append("b", 10), Ok(2)),
        (Given::Append("c", 7), Ok(3)),
        (Given::Append("d", 20), Ok(4)),
        (Given::Append("e", 4_294_967_295), Ok(5)),
        (Given::Remove("b"), Ok(6)),
    ];
    // Two that share an end, one twice, an empty one, the whole line, and one within another.
    let intervals = [
        (0, 10),
        (10, 20),
        (0, 10),
        (0, 0),
        (0, 4_294_967_296),
        (5, 8),
    ];
    let lists: [(u32, &[u64]); 6] = [
        (1, &[1, 3]),
        (2, &[2, 6]),
        (3, &[1, 3]),
        (4, &[]),
        (5, &[1, 2, 3, 4, 5, 6]),
        (6, &[3]),
    ];
    tried(&rt, rt.alloc(), &intervals, &edits, &lists)
}

#[test]
fn as_many_as_there_may_be(rt: HostRuntime) -> Result<(), Fail> {
    let mut intervals = Vec::new(rt.alloc());
    for i in 0..64u64 {
        intervals.push((0, i + 1))?;
    }
    let edits = [
        (Given::Append("a", 0), Ok(1)),
        (Given::Append("b", 31), Ok(2)),
        (Given::Append("c", 63), Ok(3)),
        (Given::Append("d", 64), Ok(4)),
    ];
    let lists: [(u32, &[u64]); 3] = [(31, &[1]), (32, &[1, 2]), (64, &[1, 2, 3])];
    tried(&rt, rt.alloc(), &intervals, &edits, &lists)
}
