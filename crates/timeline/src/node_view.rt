ghost use Rattle.std.specs.Prelude.{◌≡◌, ◌<◌, ◌≤◌, length, IfOk, SomeIff};
ghost use Rattle.definitions.specs.Rows.{rows_in};
ghost use Rattle.dyadic.specs.Nodes.{IsNode, low_of, high_of, left_of, right_of, LiesWithin};
ghost use Rattle.timeline.specs.Moments.{since as since_version};
ghost use Rattle.timeline.specs.Pasts.{rows_at};
ghost use Rattle.timeline.specs.Stores.{store_of, span_at, Stands};
ghost use Rattle.timeline.specs.Timelines.{IsTimeline, past_of};
ghost use Rattle.timeline.specs.Places.{IsPlacedUnder, IsView, key_in, digits_of};

use crate::timeline::key_at;
use crate::tree::{Tree, is_lower, prefix};
use crate::view::copy_all;
use dyadic::Node;
use increments::RowList;
use std::alloc::Global;
use std::marker::Model;
use words::Memory;

/// The rows of one version in a dyadic node, by reference. Its halves are one step away.
#[derive(Drop)]
pub struct NodeView<'a> {
    tree: &'a Tree,
    roots: &'a [u32],
    version: u64,
    node: Node,
    /// The highest tree node of the version whose keys all lie in the node.
    at: Option<u32>,
}

impl<'a> Model for NodeView<'a> {
    ghost use Rattle.timeline.specs.Stores.{store_of};
    ghost use Rattle.timeline.specs.Timelines.{past_of};
    ghost use Rattle.timeline.specs.Places.{NodeViewValue, IsView};

    ghost Value = { NodeViewValue };

    ghost view = { λ v. record { past = past_of v.tree.now v.roots.now; version = v.version; node = v.node } };

    ghost invariant = { λ v. IsView (store_of v.tree.now) v.roots.now v.version v.node v.at };
}

/// The highest tree node under this one whose keys all agree with this key but for the last digits, this many.
fn find_under(tree: &Tree, limit: u32, at: u32, key: u64, digits: u32) -> Option<u32>
    requires stands { Stands (store_of tree.now) at }
    requires low { (span_at (store_of tree.now) at).height ≤ limit }
    requires digits { digits ≤ 63 }
    ensures { IsPlacedUnder (store_of tree.now) at key digits result }
{
    let span = tree.spans[at as usize];
    if span.height <= digits {
        if prefix(tree.keys[span.edit as usize], digits) == prefix(key, digits) {
            return Some(at);
        }
        return None;
    }
    let half = span.height - 1;
    if is_lower(key, half) {
        find_under(tree, half, span.left, key, digits)
    } else {
        find_under(tree, half, span.right, key, digits)
    }
}

/// How many last digits differ among the keys of a node.
fn digits(node: &Node) -> u32
    requires { IsNode node.now }
    ensures { result ≡ digits_of node.now }
{
    (47 - node.n()) as u32
}

/// The highest tree node under this one whose keys all lie in the node.
fn place_under(tree: &Tree, at: u32, node: Node) -> Option<u32>
    requires { Stands (store_of tree.now) at }
    ensures { IsPlacedUnder (store_of tree.now) at (key_in node) (digits_of node) result }
{
    let key = key_at(node.low(), 0);
    find_under(tree, 63, at, key, digits(&node))
}

/// The highest tree node of version v whose keys all lie in the node.
fn place_at(tree: &Tree, roots: &[u32], node: Node, v: u64) -> Option<u32>
    requires timeline { IsTimeline (store_of tree.now) roots.now }
    requires version { v ≤ length tree.now.keys.items }
    ensures { IsView (store_of tree.now) roots.now v node result }
{
    if v == 0 {
        return None;
    }
    place_under(tree, roots[v as usize - 1], node)
}

/// The highest tree node whose keys all lie in a node within this one.
fn place_within(
    tree: &Tree,
    roots: &[u32],
    v: u64,
    node: Node,
    at: Option<u32>,
    inner: Node,
) -> Option<u32>
    requires view { IsView (store_of tree.now) roots.now v node at }
    requires within { LiesWithin (low_of node) (high_of node) inner }
    ensures { IsView (store_of tree.now) roots.now v inner result }
{
    place_under(tree, at?, inner)
}

impl<'a> NodeView<'a> {
    /// The rows of version v in the node.
    pub(crate) fn of(tree: &'a Tree, roots: &'a [u32], node: Node, v: u64) -> NodeView<'a>
        requires timeline { IsTimeline (store_of tree.now) roots.now }
        requires version { v ≤ length tree.now.keys.items }
        ensures { result ≡ record { past = past_of tree.now roots.now; version = v; node = node } }
    {
        let at = place_at(tree, roots, node, v);
        NodeView {
            tree,
            roots,
            version: v,
            node,
            at,
        }
    }

    /// The node.
    pub fn node(&self) -> Node
        ensures { result ≡ self.now.node }
    {
        self.node
    }

    /// The last version from 1 on, up to this one, that touched the node, or 0 where there is none.
    pub fn since(&self) -> u64
        ensures { result ≡ since_version (low_of self.now.node) (high_of self.now.node) self.now.past.ticks self.now.version }
    {
        match self.at {
            Some(at) => self.tree.spans[at as usize].edit as u64 + 1,
            None => 0,
        }
    }

    /// How many rows lie in the node.
    pub fn count(&self) -> u64
        ensures { result ≡ length (rows_in (low_of self.now.node) (high_of self.now.node) (rows_at self.now.past self.now.version)) }
    {
        match self.at {
            Some(at) => self.tree.spans[at as usize].count as u64,
            None => 0,
        }
    }

    /// Equal rows to those in the node.
    pub fn copy(&self, alloc: Global) -> Result<RowList, Memory>
        ensures { IfOk result (λ list. list ≡ rows_in (low_of self.now.node) (high_of self.now.node) (rows_at self.now.past self.now.version)) }
    {
        let mut rows = Vec::new(alloc);
        let Some(at) = self.at else {
            return Ok(RowList::of(rows));
        };
        copy_all(self.tree, 63, at, &mut rows)?;
        Ok(RowList::of(rows))
    }

    /// The rows of the version in a node within this one.
    pub fn within(&self, inner: Node) -> NodeView<'a>
        requires { LiesWithin (low_of self.now.node) (high_of self.now.node) inner }
        ensures { result ≡ record { past = self.now.past; version = self.now.version; node = inner } }
    {
        let (tree, roots, version) = (self.tree, self.roots, self.version);
        let at = place_within(tree, roots, version, self.node, self.at, inner);
        NodeView {
            tree,
            roots,
            version,
            node: inner,
            at,
        }
    }

    /// The rows in the earlier half; a node of one tick has none.
    pub fn left(&self) -> Option<NodeView<'a>>
        ensures { SomeIff result (0 < self.now.node.height) (record { past = self.now.past; version = self.now.version; node = left_of self.now.node }) }
    {
        let half = self.node.left()?;
        Some(self.within(half))
    }

    /// The rows in the later half; a node of one tick has none.
    pub fn right(&self) -> Option<NodeView<'a>>
        ensures { SomeIff result (0 < self.now.node.height) (record { past = self.now.past; version = self.now.version; node = right_of self.now.node }) }
    {
        let half = self.node.right()?;
        Some(self.within(half))
    }
}
