//! The watches of a run, and their lines.
ghost use Rattle.std.specs.Prelude.{◌≡◌, ◌++◌, ◌∷◌, ◌≤◌, [], length, string_bytes, OnOk, IfOk, All};
ghost use Rattle.versions.specs.Versions.{IsEdit, IsAccepted, IsLog, current_rows};
ghost use Rattle.watches.specs.Watches.{IsInterval};
ghost use Rattle.answers.specs.Watched.{watches_text};

use crate::decimals::push_listed;
use std::alloc::Global;
use versions::Accepted;
use watches::{FeedFault, Interval, Watches};
use words::{Memory, Shape};

/// Watches of these intervals, before any edit.
fn watching(alloc: Global, shape: Shape, intervals: &[Interval]) -> Result<Watches, Memory>
    requires few { length intervals.now ≤ 64 }
    requires intervals { All IsInterval intervals.now }
    ensures { IfOk result (λ watches. watches ≡ record { log = record { extent = shape; edits = [] }; intervals = intervals.now }) }
{
    let mut watches = Watches::new(alloc, shape)?;
    for interval in intervals {
        watches.add(alloc, interval.from, interval.to)?;
    }
    Ok(watches)
}

/// The next edit, which was accepted after those before it.
fn feed_accepted(alloc: Global, watches: &mut Watches, accepted: &Accepted) -> Result<(), Memory>
    requires edit { IsEdit watches.old.log.extent accepted.now.edit }
    requires accepted { IsAccepted (current_rows watches.old.log.edits) accepted.now }
    ensures { OnOk result (watches.new ≡ record { log = record { extent = watches.old.log.extent; edits = watches.old.log.edits ++ accepted.now ∷ [] }; intervals = watches.old.intervals }) }
{
    match watches.feed(alloc, &accepted.edit) {
        Ok(_) => Ok(()),
        Err(FeedFault::Memory) => Err(Memory),
        Err(FeedFault::NameTaken(_) | FeedFault::NoRow(_)) => unreachable!(),
    }
}

/// Watches of these intervals over these accepted edits.
pub(crate) fn watched(
    alloc: Global,
    shape: Shape,
    intervals: &[Interval],
    edits: &[Accepted],
) -> Result<Watches, Memory>
    requires few { length intervals.now ≤ 64 }
    requires intervals { All IsInterval intervals.now }
    requires log { IsLog (record { extent = shape; edits = edits.now }) }
    ensures { IfOk result (λ watches. watches ≡ record { log = record { extent = shape; edits = edits.now }; intervals = intervals.now }) }
{
    let mut watches = watching(alloc, shape, intervals)?;
    for accepted in edits {
        feed_accepted(alloc, &mut watches, accepted)?;
    }
    Ok(watches)
}

/// Appends the line of each watch.
fn push_lines(text: &mut String, watches: &Watches) -> Result<(), Memory>
    ensures { OnOk result (string_bytes text.new ≡ string_bytes text.old ++ watches_text watches.now.log.edits 1 watches.now.intervals) }
{
    for before in 0..watches.len() {
        let number = before + 1;
        write!(text, "watch {number} versions ")?;
        push_listed(text, watches.versions_of(number))?;
        text.push_str("\n")?;
    }
    Ok(())
}

/// Appends the lines of watches of these intervals over these accepted edits.
pub(crate) fn push_watches(
    text: &mut String,
    alloc: Global,
    shape: Shape,
    intervals: &[Interval],
    edits: &[Accepted],
) -> Result<(), Memory>
    requires few { length intervals.now ≤ 64 }
    requires intervals { All IsInterval intervals.now }
    requires log { IsLog (record { extent = shape; edits = edits.now }) }
    ensures { OnOk result (string_bytes text.new ≡ string_bytes text.old ++ watches_text edits.now 1 intervals.now) }
{
    if intervals.is_empty() {
        return Ok(());
    }
    push_lines(text, &watched(alloc, shape, intervals, edits)?)
}
