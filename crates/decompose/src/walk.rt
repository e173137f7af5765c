ghost use Rattle.std.specs.Prelude.{◌≡◌, ◌^◌, ◌<◌, ◌≤◌, IfOk, vec_len};
ghost use Rattle.dyadic.specs.Nodes.{IsNode, LiesWithin, low_of, high_of, parent_of};
ghost use Rattle.decompose.specs.Pieces.{IsPieces, Adjoin};

use dyadic::Node;
use std::alloc::Global;
use words::Memory;

/// The longest node that begins at `at` and ends at `end` or before.
fn longest_from(at: u64, end: u64) -> Node
    requires some { at < end }
    requires line { end ≤ 2 ^ 32 }
    ensures is_node { IsNode result }
    ensures begins { low_of result ≡ at }
    ensures ends { high_of result ≤ end }
    ensures longest { result.height < 32 → ¬ LiesWithin at end (parent_of result) }
{
    let mut node = Node::new(at, 16).unwrap();
    while let Some(parent) = node.parent() {
        if parent.low() < at || end < parent.high() {
            return node;
        }
        node = parent;
    }
    node
}

/// The pieces of [a, b) for ticks a and b: the maximal nodes inside it, from left to right.
/// Their spans are together the interval, and there are at most 64.
pub fn pieces(alloc: Global, a: u64, b: u64) -> Result<Vec<Node>, Memory>
    requires order { a ≤ b }
    requires line { b ≤ 2 ^ 32 }
    ensures pieces { IfOk result (λ nodes. IsPieces a b nodes.items) }
    ensures adjoin { IfOk result (λ nodes. Adjoin a b nodes.items) }
    ensures count { IfOk result (λ nodes. vec_len nodes ≤ 64) }
{
    let mut nodes = Vec::new(alloc);
    let mut at = a;
    while at < b {
        let node = longest_from(at, b);
        nodes.push(node)?;
        at = node.high();
    }
    Ok(nodes)
}
