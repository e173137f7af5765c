//! What plans weigh, and how much in them is kept and missed.
ghost use Rattle.std.specs.Prelude.{◌≡◌, ◌^◌, ◌<◌, ◌+◌, min, length, sum_by};
ghost use Rattle.definitions.specs.Rows.{moves_of};
ghost use Rattle.definitions.specs.Signature.{weight};
ghost use Rattle.solve.specs.Plans.{plan_weight, total_weight, hits_of, missed, all_missed, exps_of};

use crate::plan::Plan;
use increments::Row;

fn rows_weight(rows: &[Row]) -> u128
    requires { weight (moves_of rows.now) < 2 ^ 128 }
    ensures { result ≡ weight (moves_of rows.now) }
{
    let mut total: u128 = 0;
    for row in rows {
        total += row.x().weight();
    }
    total
}

fn weight_of(plan: &Plan) -> u128
    requires { plan_weight plan.now < 2 ^ 128 }
    ensures { result ≡ plan_weight plan.now }
{
    match plan {
        Plan::Hit(_, sig) => sig.weight(),
        Plan::Unit(_) => 0,
        Plan::Leaf(_, rows) => rows_weight(rows.list()),
        Plan::Split(_, left, right) => weight_of(left) + weight_of(right),
    }
}

/// The weight of all hits and rows.
pub(crate) fn weight_of_all(plans: &[Plan]) -> u128
    requires { total_weight plans.now < 2 ^ 128 }
    ensures { result ≡ total_weight plans.now }
{
    let mut total: u128 = 0;
    for plan in plans {
        total += weight_of(plan);
    }
    total
}

fn sum_of(a: u64, b: u64) -> u64
    ensures { result ≡ min (a + b) u64.MAX }
{
    a.saturating_add(b)
}

fn hits_in(plan: &Plan) -> u64
    ensures { result ≡ min (hits_of plan.now) u64.MAX }
{
    match plan {
        Plan::Hit(_, _) => 1,
        Plan::Unit(_) => 0,
        Plan::Leaf(_, _) => 0,
        Plan::Split(_, left, right) => sum_of(hits_in(left), hits_in(right)),
    }
}

fn misses_in(plan: &Plan) -> u64
    ensures { result ≡ min (length (missed plan.now)) u64.MAX }
{
    match plan {
        Plan::Hit(_, _) => 0,
        Plan::Unit(_) => 0,
        Plan::Leaf(_, _) => 1,
        Plan::Split(_, left, right) => sum_of(sum_of(misses_in(left), misses_in(right)), 1),
    }
}

fn exps_in(plan: &Plan) -> u64
    ensures { result ≡ min (exps_of plan.now) u64.MAX }
{
    match plan {
        Plan::Hit(_, _) => 0,
        Plan::Unit(_) => 0,
        Plan::Leaf(_, rows) => rows.list().len() as u64,
        Plan::Split(_, left, right) => sum_of(exps_in(left), exps_in(right)),
    }
}

/// How many nodes are kept.
pub(crate) fn hits_in_all(plans: &[Plan]) -> u64
    ensures { result ≡ min (sum_by hits_of plans.now) u64.MAX }
{
    let mut total = 0;
    for plan in plans {
        total = sum_of(total, hits_in(plan));
    }
    total
}

/// How many nodes are missed.
pub(crate) fn misses_in_all(plans: &[Plan]) -> u64
    ensures { result ≡ min (length (all_missed plans.now)) u64.MAX }
{
    let mut total = 0;
    for plan in plans {
        total = sum_of(total, misses_in(plan));
    }
    total
}

/// How many rows the leaves have.
pub(crate) fn exps_in_all(plans: &[Plan]) -> u64
    ensures { result ≡ min (sum_by exps_of plans.now) u64.MAX }
{
    let mut total = 0;
    for plan in plans {
        total = sum_of(total, exps_in(plan));
    }
    total
}
