ghost use Rattle.std.specs.Prelude.{◌≡◌, ◌^◌, ◌<◌, ◌≤◌, ◌-◌, ◌-ℤ◌, ◌≤ℤ◌, pos, negsuc, IsTrue, ◌↔◌, SomeIff};
ghost use Rattle.definitions.specs.Rows.{lies_in};
ghost use Rattle.dyadic.specs.Nodes.{IsNode, IsNodeAt, node_at, height_of, low_of, high_of, left_of, right_of, parent_of};

use std::marker::Model;

/// The dyadic interval from k 2^-n up to (k + 1) 2^-n, without its end: in ticks of 2^-16, from k 2^(16 - n) up to (k + 1) 2^(16 - n).
/// The n is from -16 to 16, and k is below 2^(16 + n), so that the interval is a part of the 2^32 ticks from 0.
#[derive(Debug, Clone, Copy, PartialEq, Eq, PartialOrd, Ord, Hash, Drop)]
pub struct Node {
    k: u64,
    n: i8,
}

impl Model for Node {
    ghost use Rattle.std.specs.Prelude.{pos, ◌-ℤ◌};
    ghost use Rattle.dyadic.specs.Nodes.{NodeValue, IsNodeAt, node_at};
    ghost use Rattle.std.proofs.Common.{ap};
    ghost use Rattle.dyadic.specs.Exponents.{exponent_back};

    ghost Value = { NodeValue };

    ghost view = { λ node. node_at node.k node.n };

    ghost inverse = { λ v. record { k = v.index; n = pos 16 -ℤ pos v.height } };

    ghost inverse_ok = { λ node h. ap (λ n. record { k = node.k; n = n }) (exponent_back node.n h.finest) };

    ghost invariant = { λ node. IsNodeAt node.k node.n };
}

/// 2 to the power of the height.
fn power(height: u8) -> u64
    requires { height ≤ 32 }
    ensures { result ≡ 2 ^ height }
{
    1 << height
}

/// The height of a node with that n: its span is 2 to the power of that, in ticks.
fn height(n: i8) -> u8
    requires coarsest { negsuc 15 ≤ℤ n }
    requires finest { n ≤ℤ pos 16 }
    ensures value { result ≡ height_of n }
    ensures bound { result ≤ 32 }
{
    (16 - n) as u8
}

impl Node {
    /// The node (k, n), where there is one.
    pub fn new(k: u64, n: i8) -> Option<Node>
        ensures { SomeIff result (IsNodeAt k n) (node_at k n) }
    {
        if n < -16 || n > 16 || k >= power((16 + n) as u8) {
            return None;
        }
        Some(Node { k, n })
    }

    /// How many spans of this length come before this one.
    pub fn k(&self) -> u64
        ensures { result ≡ self.now.index }
    {
        self.k
    }

    /// The span is 2^-n long.
    pub fn n(&self) -> i8
        ensures { result ≡ pos 16 -ℤ pos self.now.height }
    {
        self.n
    }

    /// The first tick of the span.
    pub fn low(&self) -> u64
        ensures value { result ≡ low_of self.now }
        ensures node { IsNode self.now }
    {
        self.k * power(height(self.n))
    }

    /// The first tick after the span.
    pub fn high(&self) -> u64
        ensures value { result ≡ high_of self.now }
        ensures node { IsNode self.now }
        ensures bound { result ≤ 2 ^ 32 }
    {
        (self.k + 1) * power(height(self.n))
    }

    /// Whether the tick is in the span.
    pub fn holds(&self, tick: u64) -> bool
        ensures { result ≡ lies_in (low_of self.now) (high_of self.now) tick }
    {
        self.low() <= tick && tick < self.high()
    }

    /// The earlier half; a node of one tick has none.
    pub fn left(&self) -> Option<Node>
        ensures { SomeIff result (0 < self.now.height) (left_of self.now) }
    {
        if self.n == 16 {
            return None;
        }
        Some(Node {
            k: 2 * self.k,
            n: self.n + 1,
        })
    }

    /// The later half; a node of one tick has none.
    pub fn right(&self) -> Option<Node>
        ensures { SomeIff result (0 < self.now.height) (right_of self.now) }
    {
        if self.n == 16 {
            return None;
        }
        Some(Node {
            k: 2 * self.k + 1,
            n: self.n + 1,
        })
    }

    /// The node of which this one is a half; the node of all ticks has none.
    pub fn parent(&self) -> Option<Node>
        ensures { SomeIff result (self.now.height < 32) (parent_of self.now) }
    {
        if self.n == -16 {
            return None;
        }
        Some(Node {
            k: self.k / 2,
            n: self.n - 1,
        })
    }
}
