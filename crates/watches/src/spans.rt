//! The line of time, cut at the ends of intervals. The same intervals hold each tick of a span.
ghost use Rattle.std.specs.Prelude.{◌≡◌, ◌+◌, ◌<◌, ◌≤◌, [], ◌∷◌, ◌++◌, length, slice_index, IfOk};
ghost use Rattle.std.specs.List.Sorted.{IsNonDecreasing};
ghost use Rattle.watches.specs.Spans.{AreHolders, HaveEnds, AreHeldAt};

use crate::interval::Interval;
use std::alloc::Global;
use std::marker::Model;
use words::Memory;

/// Intervals, and the spans between their ends; seen as the intervals.
#[derive(Drop)]
pub struct Spans {
    intervals: Vec<Interval>,
    cuts: Vec<u64>,
    holders: Vec<Vec<usize>>,
}

impl Model for Spans {
    ghost use Rattle.std.specs.Prelude.{List};
    ghost use Rattle.watches.specs.declared.interval.Interval.{Interval};
    ghost use Rattle.watches.specs.Spans.{AreSpans};

    ghost Value = { List Interval };

    ghost view = { λ s. s.intervals.items };

    ghost invariant = { λ s. AreSpans s.intervals.items s.cuts.items s.holders.items };
}

/// Zero and the ends of the intervals, rising.
fn cuts_of(alloc: Global, intervals: &[Interval]) -> Result<Vec<u64>, Memory>
    ensures rising { IfOk result (λ cuts. IsNonDecreasing cuts.items) }
    ensures ends { IfOk result (λ cuts. HaveEnds intervals.now cuts.items) }
{
    let mut cuts = Vec::new(alloc);
    cuts.push(0)?;
    for interval in intervals {
        cuts.push(interval.from)?;
        cuts.push(interval.to)?;
    }
    cuts.sort()?;
    Ok(cuts)
}

/// The places of the intervals that hold a tick, rising.
fn holders_of(alloc: Global, intervals: &[Interval], tick: u64) -> Result<Vec<usize>, Memory>
    ensures { IfOk result (λ holders. AreHolders intervals.now tick holders.items) }
{
    let mut holders = Vec::new(alloc);
    for (i, interval) in intervals.iter().enumerate() {
        if interval.holds(tick) {
            holders.push(i)?;
        }
    }
    Ok(holders)
}

/// The places of the intervals that hold each of these ticks.
fn holders_at(
    alloc: Global,
    intervals: &[Interval],
    cuts: &[u64],
) -> Result<Vec<Vec<usize>>, Memory>
    ensures { IfOk result (λ holders. AreHeldAt intervals.now cuts.now holders.items) }
{
    let mut holders = Vec::new(alloc);
    for cut in cuts {
        holders.push(holders_of(alloc, intervals, *cut)?)?;
    }
    Ok(holders)
}

/// The last place whose tick is at most this one.
fn place_of(cuts: &[u64], tick: u64) -> usize
    requires some { 0 < length cuts.now }
    requires first { slice_index cuts.now 0 ≤ tick }
    ensures within { result < length cuts.now }
    ensures from { slice_index cuts.now result ≤ tick }
    ensures to { result + 1 < length cuts.now → tick < slice_index cuts.now (result + 1) }
{
    let mut low = 0;
    let mut high = cuts.len();
    while low + 1 < high {
        let middle = low + (high - low) / 2;
        if cuts[middle] <= tick {
            low = middle;
        } else {
            high = middle;
        }
    }
    low
}

/// These intervals and one more.
fn with_one(alloc: Global, intervals: &[Interval], one: Interval) -> Result<Vec<Interval>, Memory>
    ensures { IfOk result (λ all. all.items ≡ intervals.now ++ one ∷ []) }
{
    let mut all = Vec::from_slice(alloc, intervals)?;
    all.push(one)?;
    Ok(all)
}

impl Spans {
    /// The spans of these intervals.
    pub fn of(alloc: Global, intervals: Vec<Interval>) -> Result<Spans, Memory>
        ensures { IfOk result (λ spans. spans ≡ intervals.items) }
    {
        let cuts = cuts_of(alloc, &intervals)?;
        let holders = holders_at(alloc, &intervals, &cuts)?;
        Ok(Spans {
            intervals,
            cuts,
            holders,
        })
    }

    /// The spans of these intervals and one more.
    pub fn with(&self, alloc: Global, one: Interval) -> Result<Spans, Memory>
        ensures { IfOk result (λ spans. spans ≡ self.now ++ one ∷ []) }
    {
        Spans::of(alloc, with_one(alloc, &self.intervals, one)?)
    }

    /// The places of the intervals that hold a tick, rising. Takes no memory.
    pub fn holders_at(&self, tick: u64) -> &[usize]
        ensures { AreHolders self.now tick result.now }
    {
        &self.holders[place_of(&self.cuts, tick)]
    }
}
