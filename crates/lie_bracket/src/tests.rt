ghost use Rattle.std.specs.Prelude.{All, IfOk};
ghost use Rattle.definitions.specs.Hall.{InHall, hall_list};

use crate::{BracketFault, BracketTable, ExpandFault, LieElement, Term, TermsFault, expand};
use hall_set::HallSet;
use std::alloc::Global;
use std::test::Fail;
use words::Shape;

/// The element of one term.
fn single(alloc: Global, hall: &HallSet, factor: i128, number: u32) -> Result<LieElement, Fail>
    ensures { IfOk result (λ z. All (λ t. InHall (hall_list hall.now.width hall.now.depth) t.number) z) }
{
    let mut terms = Vec::new(alloc);
    terms.push(Term { factor, number })?;
    Ok(LieElement::of(hall, terms)?)
}

#[test]
fn expanded_pair(rt: HostRuntime) -> Result<(), Fail> {
    let hall = HallSet::build(rt.alloc(), Shape::new(2, 2)?)?;
    let z = single(rt.alloc(), &hall, 4, 3)?;
    let tensor = expand(rt.alloc(), &hall, &z)?;
    for (k, level) in [(0, &[0][..]), (1, &[0, 0]), (2, &[0, 4, -4, 0])] {
        assert_eq!(rt; tensor.level(k), level);
    }
    let z = single(rt.alloc(), &hall, 1 << 126, 3)?;
    assert_eq!(rt;
        expand(rt.alloc(), &hall, &z).err(),
        Some(ExpandFault::Level(2))
    );
    Ok(())
}

#[test]
fn refused_terms(rt: HostRuntime) -> Result<(), Fail> {
    let hall = HallSet::build(rt.alloc(), Shape::new(2, 2)?)?;
    for (i, numbers, factor) in [
        (0, [0, 1], 1),
        (1, [1, 4], 1),
        (1, [2, 2], 1),
        (0, [1, 2], 0),
        (0, [1, 2], i128::MIN),
    ] {
        let mut terms = Vec::new(rt.alloc());
        for number in numbers {
            terms.push(Term { factor, number })?;
        }
        assert_eq!(rt;
            LieElement::of(&hall, terms).err(),
            Some(TermsFault::Place(i))
        );
    }
    Ok(())
}

#[test]
fn brackets_of_depth_four(rt: HostRuntime) -> Result<(), Fail> {
    let hall = HallSet::build(rt.alloc(), Shape::new(2, 4)?)?;
    let table = BracketTable::build(rt.alloc(), &hall)?;
    assert_eq!(rt; table.shape().depth(), 4);
    let one = single(rt.alloc(), &hall, 1, 1)?;
    let five = single(rt.alloc(), &hall, 1, 5)?;
    for (bracket, factor) in [
        (table.bracket(rt.alloc(), &one, &five)?, 1),
        (table.bracket(rt.alloc(), &five, &one)?, -1),
        (table.majorant(rt.alloc(), &five, &one)?, 1),
    ] {
        assert_eq!(rt; bracket.terms(), [Term { factor, number: 7 }].as_slice());
    }
    Ok(())
}

#[test]
fn bracket_out_of_range(rt: HostRuntime) -> Result<(), Fail> {
    let hall = HallSet::build(rt.alloc(), Shape::new(2, 4)?)?;
    let table = BracketTable::build(rt.alloc(), &hall)?;
    let first = single(rt.alloc(), &hall, 1 << 34, 1)?;
    let second = single(rt.alloc(), &hall, 1 << 33, 2)?;
    assert_eq!(rt; first.top(), 17179869184);
    assert_eq!(rt;
        table.bracket(rt.alloc(), &first, &second).err(),
        Some(BracketFault::Size(17179869184, 8589934592))
    );
    let half = single(rt.alloc(), &hall, 1 << 32, 2)?;
    let bracket = table.bracket(rt.alloc(), &first, &half)?;
    assert_eq!(rt;
        bracket.terms(),
        [Term {
            factor: 1 << 66,
            number: 3
        }]
        .as_slice()
    );
    Ok(())
}
