//! What lies in an interval at a version.
ghost use Rattle.std.specs.Prelude.{◌≡◌, ◌+◌, ◌<◌, ◌≤◌, ◌^◌, ◌++◌, length, OnOk};
ghost use Rattle.timeline.specs.Keys.{keyed_in};
ghost use Rattle.timeline.specs.Tries.{rows_of};
ghost use Rattle.timeline.specs.Stores.{store_of, span_at, trie, Stands};
ghost use Rattle.timeline.specs.Puts.{AreFit};
ghost use Rattle.timeline.specs.Views.{AreTotals, IsOverlap, no_totals, summed};

use crate::tree::{Tree, prefix};
use increments::Row;
use words::Memory;

/// The number and the weight of the rows in an interval, and the last version that touched it.
#[derive(Debug, Clone, Copy, PartialEq, Eq, Drop)]
pub struct Totals {
    pub count: u64,
    pub weight: u128,
    pub since: u64,
}

/// How the keys of a node lie to an interval.
#[derive(Debug, Clone, Copy, PartialEq, Eq, Drop)]
enum Overlap {
    /// None is in it.
    Outside,
    /// All are in it.
    Inside,
    /// Some may be in it.
    Across,
}

/// How the keys that agree with this one but for the last digits, this many, lie to `from .. to`.
fn overlap_with(key: u64, height: u32, from: u64, to: u64) -> Overlap
    requires height { height ≤ 63 }
    requires key { key < 2 ^ 63 }
    ensures { IsOverlap key height from to result }
{
    let low = prefix(key, height) << height;
    let high = low + (1 << height);
    if to <= low || high <= from {
        return Overlap::Outside;
    }
    if from <= low && high <= to {
        return Overlap::Inside;
    }
    Overlap::Across
}

/// Nothing.
pub fn nothing() -> Totals
    ensures { result ≡ no_totals }
{
    Totals {
        count: 0,
        weight: 0,
        since: 0,
    }
}

/// The totals of two nodes.
fn sum_of(left: Totals, right: Totals) -> Totals
    requires count { left.count + right.count < 2 ^ 64 }
    requires weight { left.weight + right.weight < 2 ^ 128 }
    ensures { result ≡ summed left right }
{
    Totals {
        count: left.count + right.count,
        weight: left.weight + right.weight,
        since: left.since.max(right.since),
    }
}

/// What lies in `from .. to` under a tree node.
pub fn totals_under(tree: &Tree, limit: u32, at: u32, from: u64, to: u64) -> Totals
    requires stands { Stands (store_of tree.now) at }
    requires low { (span_at (store_of tree.now) at).height ≤ limit }
    requires room { length (rows_of (trie (store_of tree.now) at)) < 2 ^ 32 }
    requires fit { AreFit (store_of tree.now) }
    ensures { AreTotals from to (trie (store_of tree.now) at) result }
{
    let span = tree.spans[at as usize];
    match overlap_with(tree.keys[span.edit as usize], span.height, from, to) {
        Overlap::Outside => nothing(),
        Overlap::Inside => Totals {
            count: span.count as u64,
            weight: span.weight(),
            since: span.edit as u64 + 1,
        },
        Overlap::Across => {
            let half = span.height - 1;
            let left = totals_under(tree, half, span.left, from, to);
            let right = totals_under(tree, half, span.right, from, to);
            sum_of(left, right)
        }
    }
}

/// Equal rows to those under a tree node, after the rows that are in the list already.
pub fn copy_all(tree: &Tree, limit: u32, at: u32, rows: &mut Vec<Row>) -> Result<(), Memory>
    requires stands { Stands (store_of tree.now) at }
    requires low { (span_at (store_of tree.now) at).height ≤ limit }
    ensures { OnOk result (rows.new.items ≡ rows.old.items ++ rows_of (trie (store_of tree.now) at)) }
{
    let span = tree.spans[at as usize];
    if span.count == 0 {
        return Ok(());
    }
    if span.height == 0 {
        rows.push(tree.rows[span.right as usize].copy()?)?;
        return Ok(());
    }
    copy_all(tree, span.height - 1, span.left, rows)?;
    copy_all(tree, span.height - 1, span.right, rows)
}

/// Equal rows to those in `from .. to` under a tree node, after the rows that are in the list already.
pub fn copy_under(
    tree: &Tree,
    limit: u32,
    at: u32,
    from: u64,
    to: u64,
    rows: &mut Vec<Row>,
) -> Result<(), Memory>
    requires stands { Stands (store_of tree.now) at }
    requires low { (span_at (store_of tree.now) at).height ≤ limit }
    requires fit { AreFit (store_of tree.now) }
    ensures { OnOk result (rows.new.items ≡ rows.old.items ++ keyed_in from to (rows_of (trie (store_of tree.now) at))) }
{
    let span = tree.spans[at as usize];
    match overlap_with(tree.keys[span.edit as usize], span.height, from, to) {
        Overlap::Outside => Ok(()),
        Overlap::Inside => copy_all(tree, limit, at, rows),
        Overlap::Across => {
            let half = span.height - 1;
            copy_under(tree, half, span.left, from, to, rows)?;
            copy_under(tree, half, span.right, from, to, rows)
        }
    }
}
