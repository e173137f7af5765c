use crate::{
    Bound, Entries, Move, Shape, ShapeFault, lcm_to, lie_den, log_bound, log_den, sig_den,
};
use std::alloc::Global;
use std::test::Fail;

#[test]
fn words_and_their_numbers(rt: HostRuntime) -> Result<(), Fail> {
    let shape = Shape::new(3, 2)?;
    assert_eq!(rt; shape.width(), 3);
    assert_eq!(rt; shape.depth(), 2);
    assert_eq!(rt; shape.total(), 13);
    let word = shape.word_at(rt.alloc(), 2, 5)?;
    let copy = word.copy(rt.alloc())?;
    assert_eq!(rt; word.list(), [2, 3].as_slice());
    assert_eq!(rt; copy.list(), [2, 3].as_slice());
    assert_eq!(rt; shape.index_of(word.list()), 5);
    assert_eq!(rt; shape.index_of(copy.list()), 5);
    Ok(())
}

#[test]
fn shapes_that_are_refused(rt: HostRuntime) {
    for (width, depth, fault) in [
        (0, 2, ShapeFault::Width(0)),
        (13, 9, ShapeFault::Width(13)),
        (2, 0, ShapeFault::Depth(0)),
        (12, 9, ShapeFault::Depth(9)),
        (7, 4, ShapeFault::Words(2801)),
    ] {
        assert_eq!(rt; Shape::new(width, depth).err(), Some(fault));
    }
    for (width, depth) in [(1, 8), (12, 3), (6, 4)] {
        assert!(rt; Shape::new(width, depth).is_ok());
    }
}

/// The move of the shape with these parts, or `None` where they are refused.
fn move_of(alloc: Global, shape: Shape, given: &[&[i64]]) -> Result<Option<Move>, Fail> {
    let mut parts = Vec::new(alloc);
    for part in given {
        parts.push(Entries::of(Vec::from_slice(alloc, part)?))?;
    }
    Ok(Move::of(alloc, shape, parts)?)
}

#[test]
fn parts_of_moves(rt: HostRuntime) -> Result<(), Fail> {
    let alloc = rt.alloc();
    let shape = Shape::new(2, 2)?;
    for refused in [
        [].as_slice(),
        [[2].as_slice()].as_slice(),
        [[2, -3].as_slice(), [1].as_slice(), [].as_slice()].as_slice(),
    ] {
        assert!(rt; move_of(alloc, shape, refused)?.is_none());
    }
    let straight = move_of(alloc, shape, &[&[2, -3]])?.ok_or("refused")?;
    assert!(rt; straight.plain());
    assert_eq!(rt; straight.weight(), 3);
    let turning = move_of(alloc, shape, &[&[2, -3], &[5]])?.ok_or("refused")?;
    assert!(rt; !turning.plain());
    let copy = turning.copy()?;
    if copy.shape().depth() == 2 {
        assert_eq!(rt; copy.part(1), [2, -3].as_slice());
        assert_eq!(rt; copy.part(2), [5].as_slice());
    }
    assert_eq!(rt; copy.weight(), turning.weight());
    Ok(())
}

#[test]
fn weights_of_brackets(rt: HostRuntime) -> Result<(), Fail> {
    for (depth, entry, weight) in [
        (2, 1, 2),
        (8, 225_720_576, 60096),
        (8, 225_720_577, 60097),
        (8, -225_720_576, 60096),
    ] {
        let x = move_of(rt.alloc(), Shape::new(2, depth)?, &[&[0, 0], &[entry]])?;
        assert_eq!(rt; x.ok_or("refused")?.weight(), weight);
    }
    Ok(())
}

#[test]
fn weights_that_fit(rt: HostRuntime) -> Result<(), Fail> {
    let bound = Bound::flat(Shape::new(1, 8)?);
    assert!(rt; bound.fits(60096));
    assert!(rt; !bound.fits(60097));
    Ok(())
}

#[test]
fn denominators_and_bounds(rt: HostRuntime) {
    for (k, [sig, lcm, log, lie, bound]) in [
        (1, [1, 1, 1, 1, 1]),
        (5, [120, 60, 7200, 36000, 9000]),
        (8, [40320, 840, 33868800, 270950400, 79452240]),
    ] {
        assert_eq!(rt; sig_den(k), sig);
        assert_eq!(rt; lcm_to(k), lcm);
        assert_eq!(rt; log_den(k), log);
        assert_eq!(rt; lie_den(k), lie);
        assert_eq!(rt; log_bound(k), bound);
    }
}
