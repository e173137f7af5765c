use crate::{LogTensor, Tensor};
use std::test::Fail;
use words::{Memory, Shape};

#[test]
fn levels_of_two_letters(rt: HostRuntime) -> Result<(), Fail> {
    let shape = Shape::new(2, 1)?;
    let unit = Tensor::unit(rt.alloc(), shape)?;
    let zero = Tensor::zero(rt.alloc(), shape)?;
    let copy = unit.copy(rt.alloc())?;
    for (tensor, first) in [(&unit, &[1][..]), (&zero, &[0]), (&copy, &[1])] {
        assert_eq!(rt; tensor.level(0), first);
        assert_eq!(rt; tensor.level(1), [0, 0].as_slice());
    }
    Ok(())
}

#[test]
fn equal_tensors(rt: HostRuntime) -> Result<(), Fail> {
    let shape = Shape::new(2, 1)?;
    let unit = Tensor::unit(rt.alloc(), shape)?;
    let zero = Tensor::zero(rt.alloc(), shape)?;
    let other_shape = Tensor::unit(rt.alloc(), Shape::new(1, 2)?)?;
    assert!(rt; unit.equal(&unit.copy(rt.alloc())?));
    assert!(rt; !unit.equal(&zero));
    assert!(rt; !unit.equal(&other_shape));
    Ok(())
}

#[test]
fn bounds_of_a_logarithm(rt: HostRuntime) -> Result<(), Fail> {
    let shape = Shape::new(2, 1)?;
    for weight in [0, 7, u128::MAX] {
        let unit = Tensor::unit(rt.alloc(), shape)?;
        let zero = Tensor::zero(rt.alloc(), shape)?;
        assert!(rt; LogTensor::of(unit, weight).is_none());
        let log = LogTensor::of(zero, weight).ok_or("refused")?;
        assert_eq!(rt; log.weight(), weight);
        assert_eq!(rt; log.tensor().level(0), [0].as_slice());
        assert_eq!(rt; log.tensor().level(1), [0, 0].as_slice());
    }
    Ok(())
}

#[test]
fn copies_of_the_largest_shapes(rt: HostRuntime) -> Result<(), Fail> {
    for (width, depth, longest) in [
        (12, 3, 1728),
        (6, 4, 1296),
        (5, 4, 625),
        (4, 5, 1024),
        (3, 6, 729),
        (2, 8, 256),
        (1, 8, 1),
    ] {
        let shape = Shape::new(width, depth)?;
        let unit = Tensor::unit(rt.alloc(), shape)?;
        let zero = Tensor::zero(rt.alloc(), shape)?;
        let copy = unit.copy(rt.alloc())?;
        assert!(rt; copy.equal(&unit) && !zero.equal(&unit));
        assert_eq!(rt; copy.level(shape.depth()).len(), longest);
        assert!(rt;
            zero.copy(rt.alloc())?
                .level(shape.depth())
                .iter()
                .all(|n| *n == 0)
        );
    }
    Ok(())
}
