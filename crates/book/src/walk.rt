//! The walk of nodes at a version, over the nodes that are kept.
ghost use Rattle.std.specs.Prelude.{◌≡◌, ◌+◌, ◌≤◌, ◌^◌, All, length, map, sum_by, IfOk, OnOk};
ghost use Rattle.dyadic.specs.Nodes.{low_of, high_of};
ghost use Rattle.definitions.specs.Rows.{rows_in};
ghost use Rattle.solve.specs.declared.plan.Plan.{Leaf as LeafPlan};
ghost use Rattle.versions.specs.Versions.{rows_at};
ghost use Rattle.book.specs.Walks.{visit_of, visits_of, walk};
ghost use Rattle.book.specs.Plans.{IsPlanOf, ArePlansOf};
ghost use Rattle.book.specs.Books.{AreKept, held};

use decompose::pieces;
use node_cache::NodeCache;
use solve::Plan;
use std::alloc::Global;
use std::sync::Arc;
use versions::{EditLog, LogNode};
use words::{Ledger, Memory, Steps};

/// The most rows of a leaf: a node with at most so many isn't halved.
const LEAF_ROWS: u64 = 8;

/// The leaf of the rows in a node.
fn leaf(alloc: Global, here: &LogNode<'_>) -> Result<Plan, Memory>
    ensures { IfOk result (λ plan. plan ≡ LeafPlan here.now.node (rows_in (low_of here.now.node) (high_of here.now.node) (rows_at here.now.log.edits here.now.version))) }
{
    Ok(Plan::Leaf(here.node(), here.copy(alloc)?))
}

/// The plan for a node at a version. Takes one unit for each visited node, and after want of memory at most so many.
fn visit<L: Ledger>(
    alloc: Global,
    here: &LogNode<'_>,
    cache: &NodeCache,
    steps: &mut Steps<L>,
) -> Result<Plan, Memory>
    requires { AreKept here.now.log cache.now.entries }
    ensures plan { IfOk result (IsPlanOf here.now.log.extent here.now.log.edits here.now.version (visit_of here.now.log.edits here.now.version (held cache.now.entries) here.now.node)) }
    ensures ticks { OnOk result (steps.new ≡ steps.old + visits_of (visit_of here.now.log.edits here.now.version (held cache.now.entries) here.now.node)) }
    ensures at_most { (steps.old ≤ steps.new) × (steps.new ≤ steps.old + visits_of (visit_of here.now.log.edits here.now.version (held cache.now.entries) here.now.node)) }
{
    steps.tick();
    let node = here.node();
    if let Some(sig) = cache.peek(node, here.since()) {
        return Ok(Plan::Hit(node, Arc::try_clone(sig)?));
    }
    prove!(node.high() <= 1 << 32);
    let count = here.count();
    if count == 0 {
        return Ok(Plan::Unit(node));
    }
    if count <= LEAF_ROWS {
        return leaf(alloc, here);
    }
    let (Some(left), Some(right)) = (here.left(), here.right()) else {
        return leaf(alloc, here);
    };
    let first = visit(alloc, &left, cache, steps)?;
    let second = visit(alloc, &right, cache, steps)?;
    Ok(Plan::Split(node, Box::new(alloc, first)?, Box::new(alloc, second)?))
}

/// The plans for the pieces of `from .. to` at a version. Takes one unit for each visited node, and after want of memory at most so many.
pub fn plans_of<L: Ledger>(
    alloc: Global,
    log: &EditLog,
    cache: &NodeCache,
    version: u64,
    from: u64,
    to: u64,
    steps: &mut Steps<L>,
) -> Result<Vec<Plan>, Memory>
    requires version { version ≤ length log.now.edits }
    requires kept { AreKept log.now cache.now.entries }
    requires forward { from ≤ to }
    requires end { to ≤ 2 ^ 32 }
    ensures plans { IfOk result (λ plans. ArePlansOf log.now.extent log.now.edits version (walk log.now.edits version (held cache.now.entries) from to) plans.items) }
    ensures ticks { OnOk result (steps.new ≡ steps.old + sum_by visits_of (walk log.now.edits version (held cache.now.entries) from to)) }
    ensures at_most { (steps.old ≤ steps.new) × (steps.new ≤ steps.old + sum_by visits_of (walk log.now.edits version (held cache.now.entries) from to)) }
{
    let nodes = pieces(alloc, from, to)?;
    let mut plans = Vec::new(alloc);
    for node in nodes.iter() {
        let here = log.node_at(*node, version);
        plans.push(visit(alloc, &here, cache, steps)?)?;
    }
    Ok(plans)
}
