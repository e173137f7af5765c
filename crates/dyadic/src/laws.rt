//! How the spans of nodes lie to each other.
ghost use Rattle.std.specs.Prelude.{◌≡◌, ◌<◌, ◌≤◌};
ghost use Rattle.dyadic.specs.Nodes.{low_of, high_of, left_of, right_of, parent_of, LiesWithin};

use crate::node::Node;

/// The halves partition the span of a node.
pub fn halves_share_span(node: &Node)
    requires { 0 < node.now.height }
    ensures begins { low_of (left_of node.now) ≡ low_of node.now }
    ensures meets { high_of (left_of node.now) ≡ low_of (right_of node.now) }
    ensures ends { high_of (right_of node.now) ≡ high_of node.now }
{}

/// A node lies within its parent.
pub fn parent_covers(node: &Node)
    ensures { LiesWithin (low_of (parent_of node.now)) (high_of (parent_of node.now)) node.now }
{}

/// Two nodes of one length that meet are the same.
pub fn nodes_are_apart(a: &Node, b: &Node, tick: u64)
    requires length { a.now.height ≡ b.now.height }
    requires a_low { low_of a.now ≤ tick }
    requires a_high { tick < high_of a.now }
    requires b_low { low_of b.now ≤ tick }
    requires b_high { tick < high_of b.now }
    ensures { a.now ≡ b.now }
{}

/// Of two nodes that meet the longer one has the parent of the shorter one.
pub fn nodes_nest(a: &Node, b: &Node, tick: u64)
    requires length { a.now.height < b.now.height }
    requires a_low { low_of a.now ≤ tick }
    requires a_high { tick < high_of a.now }
    requires b_low { low_of b.now ≤ tick }
    requires b_high { tick < high_of b.now }
    ensures { LiesWithin (low_of b.now) (high_of b.now) (parent_of a.now) }
{}
