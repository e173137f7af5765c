ghost use Rattle.std.specs.Prelude.{◌≡◌};
ghost use Rattle.solve.specs.Plans.{node_of};

use dyadic::Node;
use increments::RowList;
use std::sync::Arc;
use tensor_product::Sig;

/// How the signature of a node is found.
#[derive(Drop)]
pub enum Plan {
    /// It is kept.
    Hit(Node, Arc<Sig>),
    /// The node has no rows, so that it is 1.
    Unit(Node),
    /// From the rows of the node, one after another.
    Leaf(Node, RowList),
    /// From the left and the right half of the node.
    Split(Node, Box<Plan>, Box<Plan>),
}

impl Plan {
    /// The node that the plan is for.
    pub fn node(&self) -> Node
        ensures { result ≡ node_of self.now }
    {
        match self {
            Plan::Hit(node, _) => *node,
            Plan::Unit(node) => *node,
            Plan::Leaf(node, _) => *node,
            Plan::Split(node, _, _) => *node,
        }
    }
}
