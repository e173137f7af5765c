ghost use Rattle.std.specs.Prelude.{◌≡◌, ◌+◌, ◌^◌, ◌≤◌, ◌++◌, ◌∷◌, [], List, length, sum_by, IfOk, OnOk, All, IsTrue};
ghost use Rattle.std.specs.Arc.{arc_value};
ghost use Rattle.definitions.specs.Moves.{Parts, IsMove, move_weight};
ghost use Rattle.definitions.specs.Rows.{moves_of};
ghost use Rattle.definitions.specs.Signature.{weight, limit};
ghost use Rattle.tensor_product.specs.Sigs.{StandsFor};
ghost use Rattle.solve.specs.Plans.{IsValid, IsUnit, plan_weight, total_weight, missed, all_missed, exps_of};
ghost use Rattle.solve.specs.declared.plan.Plan.{Plan as Planned};
ghost use Rattle.solve.specs.Solutions.{SolvesPlan, SolvesPlans, AreSolved, IsAdded};

use crate::gate::Gate;
use crate::lie_rows::row_sig;
use crate::plan::Plan;
use crate::work::Work;
use dyadic::Node;
use hall_set::HallSet;
use increments::Row;
use std::alloc::Global;
use std::sync::Arc;
use tensor_product::{ProductFault, Sig, extend_row, multiply_in, product};
use words::{Ledger, Memory, Move, Steps};

/// A node that was missed, with its signature.
#[derive(Drop)]
pub struct SolvedNode {
    pub node: Node,
    pub sig: Arc<Sig>,
}

/// What a work gives.
#[derive(Drop)]
pub struct Solved {
    /// The signature of all plans, one after another.
    pub sig: Sig,
    /// The nodes that were missed: plan by plan, in each the left half's, the right half's, the node.
    pub nodes: Vec<SolvedNode>,
}

/// The product, where its weight fits.
fn joined(alloc: Global, a: &Sig, b: &Sig) -> Result<Sig, Memory>
    requires shape { b.now.tensor.extent ≡ a.now.tensor.extent }
    requires fits { (a.now.weight + b.now.weight) ^ a.now.tensor.extent.depth ≤ limit }
    ensures extent { IfOk result (λ s. s.tensor.extent ≡ a.now.tensor.extent) }
    ensures weight { IfOk result (λ s. s.weight ≡ a.now.weight + b.now.weight) }
    ensures stands { IfOk result (λ s. (A B : List Parts) → StandsFor a.now A → StandsFor b.now B → StandsFor s (A ++ B)) }
{
    match product(alloc, a, b) {
        Ok(sig) => Ok(sig),
        Err(ProductFault::Memory) => Err(Memory),
        Err(ProductFault::Overflow(_)) => unreachable!(),
    }
}

/// Multiplies a signature by another one, on the right, where the weight of the product fits.
fn multiply_by(sig: &mut Sig, next: &Sig)
    requires shape { next.now.tensor.extent ≡ sig.old.tensor.extent }
    requires fits { (sig.old.weight + next.now.weight) ^ sig.old.tensor.extent.depth ≤ limit }
    ensures extent { sig.new.tensor.extent ≡ sig.old.tensor.extent }
    ensures weight { sig.new.weight ≡ sig.old.weight + next.now.weight }
    ensures stands { (A B : List Parts) → StandsFor sig.old A → StandsFor next.now B → StandsFor sig.new (A ++ B) }
{
    match multiply_in(sig, next) {
        Ok(()) => {}
        Err(_) => unreachable!(),
    }
}

/// Extends a signature by one row, where the sum of their weights fits: by a plain row letter by
/// letter, by any other by its exponential. Takes one unit, and after want of memory at most one.
pub fn add_row<L: Ledger>(
    alloc: Global,
    sig: &mut Sig,
    x: &Move,
    hall: &HallSet,
    steps: &mut Steps<L>,
) -> Result<(), Memory>
    requires shape { sig.old.tensor.extent ≡ hall.now }
    requires moved { IsMove hall.now x.now }
    requires fits { (sig.old.weight + move_weight x.now) ^ hall.now.depth ≤ limit }
    ensures extent { sig.new.tensor.extent ≡ hall.now }
    ensures stands { OnOk result ((moves : List Parts) → StandsFor sig.old moves → StandsFor sig.new (moves ++ x.now ∷ [])) }
    ensures ticks { OnOk result (steps.new ≡ steps.old + 1) }
    ensures at_most { (steps.old ≤ steps.new) × (steps.new ≤ steps.old + 1) }
{
    let _shape = hall.shape();
    if x.plain() {
        match extend_row(sig, x.part(1), steps) {
            Ok(()) => Ok(()),
            Err(_) => unreachable!(),
        }
    } else {
        match row_sig(alloc, x, hall, steps) {
            Ok(one) => {
                multiply_by(sig, &one);
                Ok(())
            }
            Err(ProductFault::Memory) => Err(Memory),
            Err(ProductFault::Overflow(_)) => unreachable!(),
        }
    }
}

/// The signature of rows whose weight fits. Takes one unit for each.
fn sig_of_rows<L: Ledger>(
    alloc: Global,
    hall: &HallSet,
    rows: &[Row],
    steps: &mut Steps<L>,
) -> Result<Sig, Memory>
    requires moves { All (λ row. IsMove hall.now row.x) rows.now }
    requires fits { weight (moves_of rows.now) ^ hall.now.depth ≤ limit }
    ensures extent { IfOk result (λ s. s.tensor.extent ≡ hall.now) }
    ensures stands { IfOk result (λ s. StandsFor s (moves_of rows.now)) }
    ensures ticks { OnOk result (steps.new ≡ steps.old + length rows.now) }
    ensures at_most { (steps.old ≤ steps.new) × (steps.new ≤ steps.old + length rows.now) }
{
    let mut sig = Sig::unit(alloc, hall.shape())?;
    for row in rows {
        add_row(alloc, &mut sig, row.x(), hall, steps)?;
    }
    Ok(sig)
}

/// Adds a node with its signature, which is shared, and gives the signature back.
fn add_solved(nodes: &mut Vec<SolvedNode>, node: Node, sig: Arc<Sig>) -> Result<Arc<Sig>, Memory>
    ensures sig { IfOk result (λ shared. arc_value shared ≡ arc_value sig) }
    ensures nodes { OnOk result (IsAdded node (arc_value sig) nodes.old.items nodes.new.items) }
{
    nodes.push(SolvedNode {
        node,
        sig: Arc::try_clone(&sig)?,
    })?;
    Ok(sig)
}

/// Whether a plan is for a node without rows, by which nothing needs to be multiplied.
fn is_unit(plan: &Plan) -> bool
    ensures { IsTrue result → IsUnit plan.now }
{
    match plan {
        Plan::Unit(_) => true,
        _ => false,
    }
}

/// The signature of a plan whose weight fits, and the nodes that are missed in it.
fn solve_plan<L: Ledger>(
    alloc: Global,
    hall: &HallSet,
    plan: &Plan,
    nodes: &mut Vec<SolvedNode>,
    steps: &mut Steps<L>,
) -> Result<Arc<Sig>, Memory>
    requires valid { IsValid hall.now plan.now }
    requires fits { plan_weight plan.now ^ hall.now.depth ≤ limit }
    ensures sig { IfOk result (λ sig. SolvesPlan hall.now plan.now (arc_value sig)) }
    ensures nodes { OnOk result ((before : List Planned) → AreSolved hall.now before nodes.old.items → AreSolved hall.now (before ++ missed plan.now) nodes.new.items) }
    ensures ticks { OnOk result (steps.new ≡ steps.old + exps_of plan.now) }
    ensures at_most { (steps.old ≤ steps.new) × (steps.new ≤ steps.old + exps_of plan.now) }
{
    match plan {
        Plan::Hit(_, sig) => Ok(Arc::try_clone(sig)?),
        Plan::Unit(_) => Ok(Arc::new(alloc, Sig::unit(alloc, hall.shape())?)?),
        Plan::Leaf(node, rows) => {
            let sig = sig_of_rows(alloc, hall, rows.list(), steps)?;
            add_solved(nodes, *node, Arc::new(alloc, sig)?)
        }
        Plan::Split(node, left, right) => {
            if is_unit(left) {
                let sig = solve_plan(alloc, hall, right, nodes, steps)?;
                return add_solved(nodes, *node, sig);
            }
            if is_unit(right) {
                let sig = solve_plan(alloc, hall, left, nodes, steps)?;
                return add_solved(nodes, *node, sig);
            }
            let first = solve_plan(alloc, hall, left, nodes, steps)?;
            let second = solve_plan(alloc, hall, right, nodes, steps)?;
            let sig = joined(alloc, &first, &second)?;
            add_solved(nodes, *node, Arc::new(alloc, sig)?)
        }
    }
}

/// The signature of plans one after another, whose weight fits, and the nodes that are missed in
/// them.
fn solve_plans<L: Ledger>(
    alloc: Global,
    hall: &HallSet,
    plans: &[Plan],
    steps: &mut Steps<L>,
) -> Result<Solved, Memory>
    requires valid { All (IsValid hall.now) plans.now }
    requires fits { total_weight plans.now ^ hall.now.depth ≤ limit }
    ensures sig { IfOk result (λ solved. SolvesPlans hall.now plans.now solved.sig) }
    ensures nodes { IfOk result (λ solved. AreSolved hall.now (all_missed plans.now) solved.nodes.items) }
    ensures ticks { OnOk result (steps.new ≡ steps.old + sum_by exps_of plans.now) }
    ensures at_most { (steps.old ≤ steps.new) × (steps.new ≤ steps.old + sum_by exps_of plans.now) }
{
    let mut nodes = Vec::new(alloc);
    let mut sig = Sig::unit(alloc, hall.shape())?;
    for plan in plans {
        if is_unit(plan) {
            continue;
        }
        let next = solve_plan(alloc, hall, plan, &mut nodes, steps)?;
        multiply_by(&mut sig, &next);
    }
    Ok(Solved { sig, nodes })
}

/// The signature of a work and the nodes that are missed in it. Calls the gate once before the
/// first unit. Takes one unit for each row of the leaves, and after want of memory at most so many.
pub fn solve<G: Gate, L: Ledger>(
    alloc: Global,
    work: &Work,
    hall: &HallSet,
    session: u32,
    gate: &G,
    steps: &mut Steps<L>,
) -> Result<Solved, Memory>
    requires { hall.now ≡ work.now.extent }
    ensures sig { IfOk result (λ solved. SolvesPlans work.now.extent work.now.plans solved.sig) }
    ensures nodes { IfOk result (λ solved. AreSolved work.now.extent (all_missed work.now.plans) solved.nodes.items) }
    ensures ticks { OnOk result (steps.new ≡ steps.old + sum_by exps_of work.now.plans) }
    ensures at_most { (steps.old ≤ steps.new) × (steps.new ≤ steps.old + sum_by exps_of work.now.plans) }
{
    gate.between(session);
    solve_plans(alloc, hall, &work.plans, steps)
}
