ghost use Rattle.std.specs.Prelude.{◌≡◌, ◌+◌, ◌<◌, ◌≤◌, ◌^◌, [], ◌∷◌, ◌++◌, length, IfOk, IfSome, IfNone, OnOk, OnErr};
ghost use Rattle.definitions.specs.Rows.{rows_in, moves_of};
ghost use Rattle.definitions.specs.Signature.{weight as weight_of};
ghost use Rattle.dyadic.specs.Nodes.{low_of, high_of};
ghost use Rattle.timeline.specs.Keys.{key_at as key_with, key_of, tick_of, with_at};
ghost use Rattle.timeline.specs.Moments.{IsFirstAfter, since as since_version};
ghost use Rattle.timeline.specs.Pasts.{rows_at, current_rows, with_version, no_past};
ghost use Rattle.timeline.specs.Stores.{store_of, trie};
ghost use Rattle.timeline.specs.Tries.{rows_of};
ghost use Rattle.timeline.specs.Puts.{Grows, GainsSpans, IsTip, AreFit, listed};
ghost use Rattle.timeline.specs.Timelines.{IsTimeline, AreRoots, IsNext, past_of};

use crate::node_view::NodeView;
use crate::tree::Tree;
use crate::view::{Totals, copy_under, nothing, totals_under};
use dyadic::Node;
use increments::{Row, RowList};
use std::alloc::Global;
use std::marker::Model;
use words::Memory;

/// The rows of a stream at each version, seen as the list of them, with the tick that each version touched.
#[derive(Drop)]
pub struct Timeline {
    tree: Tree,
    roots: Vec<u32>,
}

impl Model for Timeline {
    ghost use Rattle.timeline.specs.Pasts.{PastValue};
    ghost use Rattle.timeline.specs.Stores.{store_of};
    ghost use Rattle.timeline.specs.Timelines.{IsTimeline, past_of};

    ghost Value = { PastValue };

    ghost view = { λ t. past_of t.tree t.roots.items };

    ghost invariant = { λ t. IsTimeline (store_of t.tree) t.roots.items };
}

/// The key of a tick and a birth.
pub(crate) fn key_at(tick: u64, birth: u64) -> u64
    requires tick { tick ≤ 2 ^ 32 }
    requires birth { birth < 2 ^ 31 }
    ensures { result ≡ key_with tick birth }
{
    tick * (1 << 31) + birth
}

/// The root of the next version, with the tip of an edit in it.
fn next_root(tree: &mut Tree, roots: &[u32], tip: u32, edit: u32) -> Result<u32, Memory>
    requires edit { edit ≡ length roots.now }
    requires made { edit < length tree.old.keys.items }
    requires bound { edit + 1 < 2 ^ 31 }
    requires roots { AreRoots (store_of tree.old) roots.now }
    requires tip { IsTip (store_of tree.old) edit (rows_of (trie (store_of tree.old) tip)) tip }
    requires fit { AreFit (store_of tree.old) }
    ensures ok { IfOk result (IsNext (store_of tree.old) (store_of tree.new) roots.now tip edit) }
    ensures err { OnErr result (GainsSpans (store_of tree.old) (store_of tree.new)) }
{
    if edit == 0 {
        return Ok(tip);
    }
    let root = roots[edit as usize - 1];
    tree.put(63, root, tip, edit)
}

/// The tree nodes and the root of the next version. Want of memory leaves more of them.
fn extend(tree: &mut Tree, roots: &mut Vec<u32>, key: u64, row: Option<Row>) -> Result<(), Memory>
    requires timeline { IsTimeline (store_of tree.old) roots.old.items }
    requires room { length tree.old.keys.items + 1 < 2 ^ 31 }
    requires line { key < 2 ^ 63 }
    requires row { IfSome row (λ r. key_of r ≡ key) }
    requires birth { IfSome row (λ r. r.birth < 2 ^ 31) }
    ensures timeline { OnOk result (IsTimeline (store_of tree.new) roots.new.items) }
    ensures ok { OnOk result (past_of tree.new roots.new.items ≡ with_version (past_of tree.old roots.old.items) (tick_of key) (with_at key (listed row) (current_rows (past_of tree.old roots.old.items)))) }
    ensures spoiled { OnErr result (Grows (store_of tree.old) (store_of tree.new)) }
    ensures roots { OnErr result (roots.new.items ≡ roots.old.items) }
{
    let edit = tree.keys.len();
    tree.keys.push(key)?;
    let tip = tree.tip(edit as u32, row)?;
    let root = next_root(tree, roots, tip, edit as u32)?;
    roots.push(root)?;
    Ok(())
}

/// The next version. Want of memory, or of numbers for it, leaves all as it was.
fn commit(tree: &mut Tree, roots: &mut Vec<u32>, key: u64, row: Option<Row>) -> Result<(), Memory>
    requires timeline { IsTimeline (store_of tree.old) roots.old.items }
    requires room { length tree.old.keys.items + 1 < 2 ^ 31 }
    requires line { key < 2 ^ 63 }
    requires row { IfSome row (λ r. key_of r ≡ key) }
    requires birth { IfSome row (λ r. r.birth < 2 ^ 31) }
    ensures timeline { IsTimeline (store_of tree.new) roots.new.items }
    ensures ok { OnOk result (past_of tree.new roots.new.items ≡ with_version (past_of tree.old roots.old.items) (tick_of key) (with_at key (listed row) (current_rows (past_of tree.old roots.old.items)))) }
    ensures nodes { OnErr result (store_of tree.new ≡ store_of tree.old) }
    ensures roots { OnErr result (roots.new.items ≡ roots.old.items) }
{
    let (spans, rows, keys) = (tree.spans.len(), tree.rows.len(), tree.keys.len());
    match extend(tree, roots, key, row) {
        Ok(()) => Ok(()),
        Err(Memory) => {
            tree.spans.truncate(spans);
            tree.rows.truncate(rows);
            tree.keys.truncate(keys);
            Err(Memory)
        }
    }
}

impl Timeline {
    /// Version 0, which has no rows. Takes no memory.
    pub fn new(alloc: Global) -> Timeline
        ensures { result ≡ no_past }
    {
        Timeline {
            tree: Tree {
                spans: Vec::new(alloc),
                rows: Vec::new(alloc),
                keys: Vec::new(alloc),
            },
            roots: Vec::new(alloc),
        }
    }

    /// The last version.
    pub fn version(&self) -> u64
        ensures value { result ≡ length self.now.ticks }
        ensures versions { length self.now.rows ≡ length self.now.ticks + 1 }
        ensures bound { result < 2 ^ 31 }
    {
        self.tree.keys.len() as u64
    }

    /// What lies in `from .. to` at version v.
    pub fn totals_in(&self, from: u64, to: u64, v: u64) -> Totals
        requires version { v ≤ length self.now.ticks }
        requires forward { from ≤ to }
        requires end { to ≤ 2 ^ 32 }
        ensures count { result.count ≡ length (rows_in from to (rows_at self.now v)) }
        ensures weight { result.weight ≡ weight_of (moves_of (rows_in from to (rows_at self.now v))) }
        ensures since { result.since ≡ since_version from to self.now.ticks v }
    {
        let (tree, roots) = (&self.tree, &self.roots);
        if v == 0 {
            return nothing();
        }
        let root = roots[v as usize - 1];
        totals_under(tree, 63, root, key_at(from, 0), key_at(to, 0))
    }

    /// The rows of version v in the node, by reference. Takes no memory.
    pub fn node_view(&self, node: Node, v: u64) -> NodeView<'_>
        requires { v ≤ length self.now.ticks }
        ensures { result ≡ record { past = self.now; version = v; node = node } }
    {
        NodeView::of(&self.tree, &self.roots, node, v)
    }

    /// The last version from 1 to v that touched the node, or 0 where there is none.
    pub fn since(&self, node: Node, v: u64) -> u64
        requires { v ≤ length self.now.ticks }
        ensures { result ≡ since_version (low_of node) (high_of node) self.now.ticks v }
    {
        self.totals_in(node.low(), node.high(), v).since
    }

    /// The first version after v that touched the node, `None` where there is none.
    pub fn touched_since(&self, v: u64, node: Node) -> Option<u64>
        requires { v ≤ length self.now.ticks }
        ensures some { IfSome result (λ t. IsFirstAfter (low_of node) (high_of node) self.now.ticks v t) }
        ensures none { IfNone result (since_version (low_of node) (high_of node) self.now.ticks (length self.now.ticks) ≤ v) }
    {
        let mut touched = self.version();
        if self.since(node, touched) <= v {
            return None;
        }
        let mut before = v;
        while touched - before > 1 {
            let middle = before + (touched - before) / 2;
            if self.since(node, middle) <= v {
                before = middle;
            } else {
                touched = middle;
            }
        }
        Some(touched)
    }

    /// The next version, with this row at its key. Want of memory leaves the versions as they were.
    pub fn put(&mut self, row: Row) -> Result<(), Memory>
        requires tick { row.tick < 2 ^ 32 }
        requires birth { row.birth ≤ length self.old.ticks + 1 }
        ensures ok { OnOk result (self.new ≡ with_version self.old row.tick (with_at (key_of row) (row ∷ []) (current_rows self.old))) }
        ensures err { OnErr result (self.new ≡ self.old) }
    {
        if self.tree.keys.len() >= (1 << 31) - 1 {
            return Err(Memory);
        }
        let key = key_at(row.tick(), row.birth());
        commit(&mut self.tree, &mut self.roots, key, Some(row))
    }

    /// The next version, without the row of that tick and birth. Want of memory leaves the versions as they were.
    pub fn remove(&mut self, tick: u64, birth: u64) -> Result<(), Memory>
        requires tick { tick < 2 ^ 32 }
        requires birth { birth ≤ length self.old.ticks }
        ensures ok { OnOk result (self.new ≡ with_version self.old tick (with_at (key_with tick birth) [] (current_rows self.old))) }
        ensures err { OnErr result (self.new ≡ self.old) }
    {
        if self.tree.keys.len() >= (1 << 31) - 1 {
            return Err(Memory);
        }
        commit(&mut self.tree, &mut self.roots, key_at(tick, birth), None)
    }

    /// Equal rows to those in `from .. to` at version v.
    pub fn copy_in(&self, alloc: Global, from: u64, to: u64, v: u64) -> Result<RowList, Memory>
        requires version { v ≤ length self.now.ticks }
        requires forward { from ≤ to }
        requires end { to ≤ 2 ^ 32 }
        ensures { IfOk result (λ list. list ≡ rows_in from to (rows_at self.now v)) }
    {
        let (tree, roots) = (&self.tree, &self.roots);
        let mut rows = Vec::new(alloc);
        if v == 0 {
            return Ok(RowList::of(rows));
        }
        let root = roots[v as usize - 1];
        let (low, high) = (key_at(from, 0), key_at(to, 0));
        copy_under(tree, 63, root, low, high, &mut rows)?;
        Ok(RowList::of(rows))
    }
}
