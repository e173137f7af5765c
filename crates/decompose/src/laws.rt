//! What follows of a list that is the pieces of an interval.
ghost use Rattle.std.specs.Prelude.{◌≡◌, ◌^◌, ◌≤◌, length};
ghost use Rattle.decompose.specs.Pieces.{IsPieces, Adjoin};

use dyadic::Node;

/// There is one list of the pieces.
pub fn pieces_are_one(a: u64, b: u64, nodes: &[Node], others: &[Node])
    requires nodes { IsPieces a b nodes.now }
    requires others { IsPieces a b others.now }
    ensures { nodes.now ≡ others.now }
{}

/// The spans of the pieces are in order and apart, and together the interval. There are at most 64.
pub fn pieces_partition(a: u64, b: u64, nodes: &[Node])
    requires order { a ≤ b }
    requires line { b ≤ 2 ^ 32 }
    requires pieces { IsPieces a b nodes.now }
    ensures adjoin { Adjoin a b nodes.now }
    ensures count { length nodes.now ≤ 64 }
{}
