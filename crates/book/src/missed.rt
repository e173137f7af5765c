//! The nodes that plans miss.
ghost use Rattle.std.specs.Prelude.{◌≡◌, ◌++◌, map, IfOk, OnOk};
ghost use Rattle.solve.specs.Plans.{node_of, missed, all_missed};

use dyadic::Node;
use solve::Plan;
use std::alloc::Global;
use words::Memory;

/// Adds the nodes that a plan misses: those of the left half, those of the right half, the node.
fn add_missed(plan: &Plan, nodes: &mut Vec<Node>) -> Result<(), Memory>
    ensures { OnOk result (nodes.new.items ≡ nodes.old.items ++ map node_of (missed plan.now)) }
{
    match plan {
        Plan::Hit(_, _) | Plan::Unit(_) => {}
        Plan::Leaf(node, _) => nodes.push(*node)?,
        Plan::Split(node, left, right) => {
            add_missed(left, nodes)?;
            add_missed(right, nodes)?;
            nodes.push(*node)?;
        }
    }
    Ok(())
}

/// The nodes that plans miss, plan by plan.
pub fn missed_nodes(alloc: Global, plans: &[Plan]) -> Result<Vec<Node>, Memory>
    ensures { IfOk result (λ nodes. nodes.items ≡ map node_of (all_missed plans.now)) }
{
    let mut nodes = Vec::new(alloc);
    for plan in plans {
        add_missed(plan, &mut nodes)?;
    }
    Ok(nodes)
}
