//! Whether plans are valid.
ghost use Rattle.std.specs.Prelude.{◌≡◌, ◌<◌, ◌↔◌, All, IsTrue, MatchOption, take, slice_get};
ghost use Rattle.std.specs.Option.{IsSomeAnd};
ghost use Rattle.dyadic.specs.Nodes.{IsNode};
ghost use Rattle.increments.specs.Edits.{IsBefore, IsInOrder};
ghost use Rattle.solve.specs.Plans.{IsRowOf, AreRowsOf, AreHalves, IsValid};

use crate::plan::Plan;
use dyadic::Node;
use increments::Row;
use words::Shape;

fn is_before(row: &Row, next: &Row) -> bool
    ensures { IsTrue result ↔ IsBefore row.now next.now }
{
    row.tick() < next.tick() || (row.tick() == next.tick() && row.birth() < next.birth())
}

fn are_in_order(rows: &[Row]) -> bool
    ensures { IsTrue result ↔ IsInOrder rows.now }
{
    for i in 1..rows.len() {
        if !is_before(&rows[i - 1], &rows[i]) {
            return false;
        }
    }
    true
}

fn is_row_of(shape: Shape, node: Node, row: &Row) -> bool
    ensures { IsTrue result ↔ IsRowOf shape node row.now }
{
    node.holds(row.tick()) && row.x().shape() == shape
}

fn are_rows_of(shape: Shape, node: Node, rows: &[Row]) -> bool
    ensures { IsTrue result ↔ AreRowsOf shape node rows.now }
{
    are_in_order(rows) && rows.iter().all(|row| is_row_of(shape, node, row))
}

fn are_halves(node: Node, left: Node, right: Node) -> bool
    ensures { IsTrue result ↔ AreHalves node left right }
{
    node.left() == Some(left) && node.right() == Some(right)
}

fn is_valid(shape: Shape, plan: &Plan) -> bool
    ensures { IsTrue result ↔ IsValid shape plan.now }
{
    match plan {
        Plan::Hit(_, sig) => sig.tensor().shape() == shape,
        Plan::Unit(_) => true,
        Plan::Leaf(node, rows) => are_rows_of(shape, *node, rows.list()),
        Plan::Split(node, left, right) => {
            are_halves(*node, left.node(), right.node())
                && is_valid(shape, left)
                && is_valid(shape, right)
        }
    }
}

/// The place of the first plan that isn't valid.
pub(crate) fn first_invalid(shape: Shape, plans: &[Plan]) -> Option<u64>
    ensures { MatchOption result (All (IsValid shape) plans.now) (λ at. All (IsValid shape) (take at plans.now) × IsSomeAnd (slice_get plans.now at) (λ plan. ¬ (IsValid shape plan))) }
{
    for (at, plan) in plans.iter().enumerate() {
        if !is_valid(shape, plan) {
            return Some(at as u64);
        }
    }
    None
}
