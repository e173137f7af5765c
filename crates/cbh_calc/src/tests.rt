ghost use Rattle.std.specs.Prelude.{IfOk, All};
ghost use Rattle.definitions.specs.Moves.{IsMove};

use crate::{CbhFault, cbh};
use dynkin_map::DynkinTable;
use hall_set::HallSet;
use lie_bracket::{BracketTable, LieElement, Term};
use std::alloc::Global;
use std::test::Fail;
use words::{Entries, Move, Shape};

/// The move of these parts.
fn move_of(alloc: Global, shape: Shape, given: &[&[i64]]) -> Result<Move, Fail>
    ensures { IfOk result (λ x. IsMove shape x) }
{
    let mut parts = Vec::new(alloc);
    for part in given {
        parts.push(Entries::of(Vec::from_slice(alloc, part)?))?;
    }
    Ok(Move::of(alloc, shape, parts)?.ok_or("no such move")?)
}

fn moves_of(alloc: Global, shape: Shape, given: &[&[&[i64]]]) -> Result<Vec<Move>, Fail>
    ensures { IfOk result (λ moves. All (IsMove shape) moves.items) }
{
    let mut moves = Vec::new(alloc);
    for parts in given {
        moves.push(move_of(alloc, shape, parts)?)?;
    }
    Ok(moves)
}

/// The coordinates for the moves of these parts.
fn coordinates(
    alloc: Global,
    shape: Shape,
    given: &[&[&[i64]]],
) -> Result<Result<LieElement, CbhFault>, Fail> {
    let hall = HallSet::build(alloc, shape)?;
    let brackets = BracketTable::build(alloc, &hall)?;
    let dynkin = DynkinTable::build(alloc, &hall, &brackets)?;
    let moves = moves_of(alloc, shape, given)?;
    Ok(cbh(alloc, &hall, &dynkin, &moves))
}

#[test]
fn two_letters(rt: HostRuntime) -> Result<(), Fail> {
    let element = coordinates(rt.alloc(), Shape::new(2, 4)?, &[&[&[1, 0]], &[&[0, 1]]])??;
    let expected = [(1, 1), (1, 2), (4, 3), (9, 4), (-9, 5), (-48, 7)];
    assert_eq!(rt;
        element.terms(),
        expected
            .map(|(factor, number)| Term { factor, number })
            .as_slice()
    );
    Ok(())
}

#[test]
fn one_element(rt: HostRuntime) -> Result<(), Fail> {
    let element = coordinates(rt.alloc(), Shape::new(2, 2)?, &[&[&[3, 0], &[5]]])??;
    let expected = [(3, 1), (40, 3)].map(|(factor, number)| Term { factor, number });
    assert_eq!(rt; element.terms(), expected.as_slice());
    Ok(())
}

#[test]
fn nothing_is_left(rt: HostRuntime) -> Result<(), Fail> {
    let shape = Shape::new(2, 2)?;
    let back = coordinates(rt.alloc(), shape, &[&[&[1, 2], &[3]], &[&[-1, -2], &[-3]]])??;
    assert_eq!(rt; back.terms(), [].as_slice());
    let none = coordinates(rt.alloc(), shape, &[])??;
    assert_eq!(rt; none.terms(), [].as_slice());
    Ok(())
}

#[test]
fn weight_past_the_bound(rt: HostRuntime) -> Result<(), Fail> {
    let refused = coordinates(rt.alloc(), Shape::new(1, 8)?, &[&[&[6185]]])?;
    assert_eq!(rt; refused.err(), Some(CbhFault::Overflow(6185)));
    Ok(())
}
