ghost use Rattle.std.specs.Prelude.{◌≡◌};

use dyadic::Node;
use std::marker::Model;

/// A look whose missed nodes aren't kept yet: those of the left half of a node, those of its right half, then the node.
#[derive(Drop)]
pub struct Pending {
    version: u64,
    missed: Vec<Node>,
}

impl Model for Pending {
    ghost use Rattle.book.specs.Play.{PendingLook};

    ghost Value = { PendingLook };

    ghost view = { λ p. record { version = p.version; missed = p.missed.items } };
}

impl Pending {
    /// The look at this version that missed these nodes.
    pub fn new(version: u64, missed: Vec<Node>) -> Pending
        ensures { result ≡ record { version = version; missed = missed.items } }
    {
        Pending { version, missed }
    }

    /// The version that was looked at.
    pub fn version(&self) -> u64
        ensures { result ≡ self.now.version }
    {
        self.version
    }
}
