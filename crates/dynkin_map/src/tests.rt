ghost use Rattle.std.specs.Prelude.{◌≡◌, IfOk};

use crate::{DynkinTable, LieFault};
use hall_set::HallSet;
use lie_bracket::{BracketTable, Term};
use scaled_tensor::{LogTensor, Tensor};
use std::alloc::Global;
use std::test::Fail;
use words::Shape;

fn table_of(alloc: Global, shape: Shape) -> Result<DynkinTable, Fail>
    ensures { IfOk result (λ t. t ≡ shape) }
{
    let hall = HallSet::build(alloc, shape)?;
    let brackets = BracketTable::build(alloc, &hall)?;
    Ok(DynkinTable::build(alloc, &hall, &brackets)?)
}

#[test]
fn growths_of_two_letters(rt: HostRuntime) -> Result<(), Fail> {
    let table = table_of(rt.alloc(), Shape::new(2, 4)?)?;
    assert_eq!(rt; table.growth(1), 1);
    assert_eq!(rt; table.growth(2), 2);
    assert_eq!(rt; table.growth(3), 2);
    assert_eq!(rt; table.growth(4), 4);
    Ok(())
}

#[test]
fn coordinates_of_two_rows(rt: HostRuntime) -> Result<(), Fail> {
    let shape = Shape::new(2, 2)?;
    let table = table_of(rt.alloc(), shape)?;
    let mut tensor = Tensor::zero(rt.alloc(), shape)?;
    tensor.set(&[1], 1);
    tensor.set(&[2], 1);
    tensor.set(&[1, 2], 2);
    tensor.set(&[2, 1], -2);
    let log = LogTensor::of(tensor, 2).ok_or("refused")?;
    let element = table.to_lie(rt.alloc(), &log)?;
    let expected = [(1, 1), (1, 2), (4, 3)].map(|(factor, number)| Term { factor, number });
    assert_eq!(rt; element.terms(), expected.as_slice());
    Ok(())
}

#[test]
fn weight_past_the_bound(rt: HostRuntime) -> Result<(), Fail> {
    let shape = Shape::new(1, 8)?;
    let table = table_of(rt.alloc(), shape)?;
    for (weight, fault) in [(6184, None), (6185, Some(LieFault::Overflow(6185)))] {
        let tensor = Tensor::zero(rt.alloc(), shape)?;
        let log = LogTensor::of(tensor, weight).ok_or("refused")?;
        assert_eq!(rt; table.to_lie(rt.alloc(), &log).err(), fault);
    }
    Ok(())
}

#[test]
fn no_great_shape_is_refused(rt: HostRuntime) -> Result<(), Fail> {
    for (width, depth) in [
        (1, 8),
        (2, 8),
        (3, 6),
        (4, 5),
        (5, 4),
        (6, 4),
        (7, 3),
        (8, 3),
        (9, 3),
        (10, 3),
        (11, 3),
        (12, 3),
    ] {
        let table = table_of(rt.alloc(), Shape::new(width, depth)?)?;
        assert_eq!(rt; table.shape().width(), width);
    }
    Ok(())
}
