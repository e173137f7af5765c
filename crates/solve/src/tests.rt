ghost use Rattle.std.specs.Prelude.{◌≡◌, ◌^◌, ◌<◌, ◌≤◌, IfOk};
ghost use Rattle.definitions.specs.Moves.{IsMove};
ghost use Rattle.solve.specs.Plans.{plan_weight, total_weight};
ghost use Rattle.tensor_product.specs.Exponentiation.{HasSizes};

use crate::lie_rows::sized_tensor;
use crate::{Plan, Solved, Through, Work, WorkFault, row_sig, solve};
use dyadic::Node;
use hall_set::HallSet;
use increments::{Name, Row, RowList};
use scaled_tensor::Tensor;
use std::alloc::Global;
use std::process::Abort;
use std::sync::Arc;
use std::test::Fail;
use tensor_product::{ProductFault, Sig, exp_move};
use words::{Entries, Free, Memory, Move, Shape, Steps};

fn node(k: u64, n: i8) -> Result<Node, Fail> {
    Ok(Node::new(k, n).ok_or("no such node")?)
}

/// The move of these parts.
fn move_of(alloc: Global, shape: Shape, given: &[&[i64]]) -> Result<Move, Fail> {
    let mut parts = Vec::new(alloc);
    for part in given {
        parts.push(Entries::of(Vec::from_slice(alloc, part)?))?;
    }
    Ok(Move::of(alloc, shape, parts)?.ok_or("no such move")?)
}

/// A leaf of one row.
fn leaf(alloc: Global, shape: Shape, node: Node, tick: u64, entries: &[i64]) -> Result<Plan, Fail>
    ensures { IfOk result (λ plan. plan_weight plan ≤ 2 ^ 64) }
{
    let x = move_of(alloc, shape, &[entries])?;
    let _weight = x.weight();
    let name = Name::of(String::from_str(alloc, "a")?)?;
    let mut rows = Vec::new(alloc);
    rows.push(Row::new(name, tick, 1, x))?;
    Ok(Plan::Leaf(node, RowList::of(rows)))
}

/// The work of one plan.
fn work_of(alloc: Global, shape: Shape, plan: Plan) -> Result<Result<Work, WorkFault>, Fail>
    requires { plan_weight plan < 2 ^ 128 }
    ensures { IfOk result (λ work. IfOk work (λ work. work.extent ≡ shape)) }
{
    let mut plans = Vec::new(alloc);
    plans.push(plan)?;
    Ok(Work::of(shape, 1, plans))
}

/// The solution of a work, with a count of its own.
fn solved(alloc: Global, shape: Shape, work: &Work) -> Result<Solved, Memory>
    requires shape { work.now.extent ≡ shape }
{
    let mut steps = Steps::new(Free);
    let hall = HallSet::build(alloc, shape)?;
    solve(alloc, work, &hall, 1, &Through, &mut steps)
}

/// The signature of one row, with a count of its own.
fn signed(alloc: Global, shape: Shape, x: &Move) -> Result<Sig, ProductFault>
    requires move_of { IsMove shape x.now }
{
    let mut steps = Steps::new(Free);
    let hall = HallSet::build(alloc, shape)?;
    row_sig(alloc, x, &hall, &mut steps)
}

fn levels_are(rt: &impl Abort, sig: &Sig, expected: &[&[i128]]) {
    let depth = sig.tensor().shape().depth();
    assert_eq!(rt; expected.len(), depth as usize + 1);
    for k in 0..=depth {
        assert_eq!(rt; sig.tensor().level(k), expected[k as usize]);
    }
}

#[test]
fn one_leaf(rt: HostRuntime) -> Result<(), Fail> {
    let alloc = rt.alloc();
    let shape = Shape::new(2, 2)?;
    let plan = leaf(alloc, shape, node(0, 0)?, 0, &[2, 3])?;
    let work = work_of(alloc, shape, plan)??;
    assert_eq!(rt; work.version(), 1);
    assert_eq!(rt; (work.hits(), work.misses(), work.exps()), (0, 1, 1));
    let solved = solved(alloc, shape, &work)?;
    levels_are(&rt, &solved.sig, &[&[1], &[2, 3], &[4, 6, 6, 9]]);
    assert_eq!(rt; solved.sig.weight(), 3);
    assert_eq!(rt; solved.nodes.len(), 1);
    for solved in &solved.nodes {
        assert_eq!(rt; solved.node, node(0, 0)?);
        levels_are(&rt, &solved.sig, &[&[1], &[2, 3], &[4, 6, 6, 9]]);
    }
    Ok(())
}

#[test]
fn halves_of_a_split(rt: HostRuntime) -> Result<(), Fail> {
    let alloc = rt.alloc();
    let shape = Shape::new(2, 2)?;
    let first = leaf(alloc, shape, node(0, 2)?, 0, &[1, 0])?;
    let kept = Plan::Hit(node(1, 2)?, Arc::new(alloc, Sig::unit(alloc, shape)?)?);
    let left = Plan::Split(node(0, 1)?, Box::new(alloc, first)?, Box::new(alloc, kept)?);
    let right = leaf(alloc, shape, node(1, 1)?, 32768, &[0, 1])?;
    let plan = Plan::Split(node(0, 0)?, Box::new(alloc, left)?, Box::new(alloc, right)?);
    assert_eq!(rt; plan.node(), node(0, 0)?);
    let work = work_of(alloc, shape, plan)??;
    assert_eq!(rt; (work.hits(), work.misses(), work.exps()), (1, 4, 2));
    let solved = solved(alloc, shape, &work)?;
    levels_are(&rt, &solved.sig, &[&[1], &[1, 1], &[1, 2, 0, 1]]);
    let mut nodes = Vec::new(alloc);
    for solved in &solved.nodes {
        nodes.push((solved.node.k(), solved.node.n()))?;
    }
    assert_eq!(rt;
        nodes.as_slice(),
        [(0, 2), (0, 1), (1, 1), (0, 0)].as_slice()
    );
    Ok(())
}

#[test]
fn weight_past_the_limit(rt: HostRuntime) -> Result<(), Fail> {
    let alloc = rt.alloc();
    let shape = Shape::new(1, 8)?;
    let plan = leaf(alloc, shape, node(0, 0)?, 0, &[60097])?;
    let work = work_of(alloc, shape, plan)?;
    assert_eq!(rt; work.err(), Some(WorkFault::Overflow(60097)));
    Ok(())
}

#[test]
fn row_after_its_node(rt: HostRuntime) -> Result<(), Fail> {
    let alloc = rt.alloc();
    let shape = Shape::new(1, 1)?;
    let plan = leaf(alloc, shape, node(0, 0)?, 65536, &[1])?;
    let work = work_of(alloc, shape, plan)?;
    assert_eq!(rt; work.err(), Some(WorkFault::Plan(0)));
    Ok(())
}

#[test]
fn signature_of_a_bracket(rt: HostRuntime) -> Result<(), Fail> {
    let alloc = rt.alloc();
    let shape = Shape::new(2, 2)?;
    let x = move_of(alloc, shape, &[&[0, 0], &[1]])?;
    assert_eq!(rt; x.weight(), 2);
    if x.shape() == shape {
        let sig = signed(alloc, shape, &x)?;
        levels_are(&rt, &sig, &[&[1], &[0, 0], &[0, 2, -2, 0]]);
        assert_eq!(rt; sig.weight(), 2);
    }
    Ok(())
}

/// The exponential of the tensor of a move's Lie element, with a count of its own.
fn exponential(alloc: Global, z: &Tensor, sizes: &[u128]) -> Result<Sig, ProductFault>
    requires sized { HasSizes z.now sizes.now }
{
    let mut steps = Steps::new(Free);
    exp_move(alloc, z, sizes, &mut steps)
}

#[test]
fn exponential_of_a_bracket(rt: HostRuntime) -> Result<(), Fail> {
    let alloc = rt.alloc();
    let hall = HallSet::build(alloc, Shape::new(2, 2)?)?;
    let x = move_of(alloc, hall.shape(), &[&[0, 0], &[1]])?;
    let mut sizes = [0u128; 2];
    if x.shape() == hall.shape() {
        let z = sized_tensor(alloc, &x, &hall, &mut sizes)?;
        assert_eq!(rt; sizes, [0, 2]);
        assert_eq!(rt; z.level(2), [0, 1, -1, 0].as_slice());
        let sig = exponential(alloc, &z, &sizes)?;
        levels_are(&rt, &sig, &[&[1], &[0, 0], &[0, 2, -2, 0]]);
        assert_eq!(rt; sig.weight(), 2);
    }
    Ok(())
}

#[test]
fn heaviest_bracket(rt: HostRuntime) -> Result<(), Fail> {
    let alloc = rt.alloc();
    let shape = Shape::new(2, 8)?;
    for (entry, weight, fault) in [
        (225_720_576, 60096, None),
        (225_720_577, 60097, Some(ProductFault::Overflow(60097))),
    ] {
        let x = move_of(alloc, shape, &[&[0, 0], &[entry]])?;
        assert_eq!(rt; x.weight(), weight);
        if x.shape() == shape {
            let sig = signed(alloc, shape, &x);
            assert_eq!(rt; sig.err(), fault);
        }
    }
    Ok(())
}
