ghost use Rattle.std.specs.Prelude.{◌≡◌, IfSome, IfNone};
ghost use Rattle.words.specs.Capacities.{IsCapacity};

use std::marker::Model;

/// How many nodes a cache keeps at most, from 1 to 16,384: seen as that number.
#[derive(Debug, Clone, Copy, PartialEq, Eq, Drop)]
pub struct Capacity {
    nodes: u32,
}

impl Model for Capacity {
    ghost use Rattle.std.specs.Prelude.{ℕ};
    ghost use Rattle.words.specs.Capacities.{IsCapacity};

    ghost Value = { ℕ };

    ghost view = { λ c. c.nodes };

    ghost inverse = { λ n. record { nodes = n } };

    ghost invariant = { λ c. IsCapacity c.nodes };
}

impl Capacity {
    /// The greatest number of nodes.
    pub const MOST: u32 = 16_384;

    /// The capacity of so many nodes, or `None` exactly where they aren't from 1 to 16,384.
    pub fn new(nodes: u32) -> Option<Capacity>
        ensures given { IfSome result (λ c. c ≡ nodes) }
        ensures refused { IfNone result (IsCapacity nodes → ⊥) }
    {
        if nodes < 1 || nodes > Capacity::MOST {
            return None;
        }
        Some(Capacity { nodes })
    }

    /// The capacity of a cache where none is named.
    pub fn usual() -> Capacity
        ensures { result ≡ 4096 }
    {
        Capacity { nodes: 4096 }
    }

    /// How many nodes.
    pub fn get(self) -> u32
        ensures value { result ≡ self }
        ensures range { IsCapacity result }
    {
        self.nodes
    }
}
