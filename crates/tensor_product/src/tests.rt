ghost use Rattle.std.specs.Prelude.{◌≡◌, ◌<◌, length, IfOk};

use crate::{Overflow, ProductFault, Sig, exp_row, extend_row, multiply_in, product};
use std::alloc::Global;
use std::process::Abort;
use std::test::Fail;
use words::{Free, Shape, Steps};

/// Extends a signature by rows, up to the first that does not fit.
fn extend_rows(sig: &mut Sig, rows: &[&[i64]]) -> Result<(), Overflow> {
    let mut steps = Steps::new(Free);
    for row in rows {
        if row.len() == sig.tensor().shape().width() as usize {
            extend_row(sig, row, &mut steps)?;
        }
    }
    Ok(())
}

/// The exponential of a row, with a count of its own.
fn exponential(alloc: Global, shape: Shape, row: &[i64]) -> Result<Sig, ProductFault>
    requires row { length row.now ≡ shape.width }
    ensures { IfOk result (λ s. s.tensor.extent ≡ shape) }
{
    let mut steps = Steps::new(Free);
    exp_row(alloc, shape, row, &mut steps)
}

fn levels_are(rt: &impl Abort, sig: &Sig, expected: &[&[i128]]) {
    let depth = sig.tensor().shape().depth();
    assert_eq!(rt; expected.len(), depth as usize + 1);
    for k in 0..=depth {
        assert_eq!(rt; sig.tensor().level(k), expected[k as usize]);
    }
}

#[test]
fn unit_and_two_rows(rt: HostRuntime) -> Result<(), Fail> {
    let shape = Shape::new(2, 2)?;
    let mut sig = Sig::unit(rt.alloc(), shape)?;
    levels_are(&rt, &sig, &[&[1], &[0, 0], &[0, 0, 0, 0]]);
    assert_eq!(rt; sig.weight(), 0);
    let extended = extend_rows(&mut sig, &[&[1, 0], &[0, 1]]);
    assert_eq!(rt; extended, Ok(()));
    levels_are(&rt, &sig, &[&[1], &[1, 1], &[1, 2, 0, 1]]);
    assert_eq!(rt; sig.weight(), 2);
    Ok(())
}

#[test]
fn copy_of_the_unit(rt: HostRuntime) -> Result<(), Fail> {
    let unit = Sig::unit(rt.alloc(), Shape::new(2, 2)?)?;
    let copy = unit.copy(rt.alloc())?;
    levels_are(&rt, &copy, &[&[1], &[0, 0], &[0, 0, 0, 0]]);
    assert_eq!(rt; copy.weight(), 0);
    Ok(())
}

#[test]
fn exponential_of_a_row(rt: HostRuntime) -> Result<(), Fail> {
    let shape = Shape::new(2, 2)?;
    let sig = exponential(rt.alloc(), shape, &[2, 3])?;
    levels_are(&rt, &sig, &[&[1], &[2, 3], &[4, 6, 6, 9]]);
    assert_eq!(rt; sig.weight(), 3);
    Ok(())
}

#[test]
fn product_of_exponentials(rt: HostRuntime) -> Result<(), Fail> {
    let shape = Shape::new(2, 2)?;
    let first = exponential(rt.alloc(), shape, &[1, 0])?;
    let second = exponential(rt.alloc(), shape, &[0, 1])?;
    let both = product(rt.alloc(), &first, &second)?;
    levels_are(&rt, &both, &[&[1], &[1, 1], &[1, 2, 0, 1]]);
    assert_eq!(rt; both.weight(), 2);
    Ok(())
}

#[test]
fn row_after_a_product(rt: HostRuntime) -> Result<(), Fail> {
    let shape = Shape::new(2, 2)?;
    let first = exponential(rt.alloc(), shape, &[1, 0])?;
    let second = exponential(rt.alloc(), shape, &[0, 1])?;
    let mut both = product(rt.alloc(), &first, &second)?;
    let extended = extend_rows(&mut both, &[&[2, 3]]);
    assert_eq!(rt; extended, Ok(()));
    levels_are(&rt, &both, &[&[1], &[3, 4], &[9, 14, 10, 16]]);
    assert_eq!(rt; both.weight(), 5);
    Ok(())
}

#[test]
fn products_in_place(rt: HostRuntime) -> Result<(), Fail> {
    let shape = Shape::new(2, 2)?;
    let mut sig = exponential(rt.alloc(), shape, &[1, 0])?;
    let second = exponential(rt.alloc(), shape, &[0, 1])?;
    let third = exponential(rt.alloc(), shape, &[2, 3])?;
    assert_eq!(rt; multiply_in(&mut sig, &second), Ok(()));
    levels_are(&rt, &sig, &[&[1], &[1, 1], &[1, 2, 0, 1]]);
    assert_eq!(rt; multiply_in(&mut sig, &third), Ok(()));
    levels_are(&rt, &sig, &[&[1], &[3, 4], &[9, 14, 10, 16]]);
    assert_eq!(rt; sig.weight(), 5);
    Ok(())
}

#[test]
fn products_by_the_unit(rt: HostRuntime) -> Result<(), Fail> {
    let shape = Shape::new(2, 2)?;
    let unit = Sig::unit(rt.alloc(), shape)?;
    let row = exponential(rt.alloc(), shape, &[2, 3])?;
    let mut sig = Sig::unit(rt.alloc(), shape)?;
    assert_eq!(rt; multiply_in(&mut sig, &row), Ok(()));
    levels_are(&rt, &sig, &[&[1], &[2, 3], &[4, 6, 6, 9]]);
    assert_eq!(rt; multiply_in(&mut sig, &unit), Ok(()));
    levels_are(&rt, &sig, &[&[1], &[2, 3], &[4, 6, 6, 9]]);
    assert_eq!(rt; sig.weight(), 3);
    Ok(())
}

#[test]
fn product_in_place_past_the_limit(rt: HostRuntime) -> Result<(), Fail> {
    let shape = Shape::new(1, 8)?;
    let mut sig = exponential(rt.alloc(), shape, &[60096])?;
    let row = exponential(rt.alloc(), shape, &[1])?;
    assert_eq!(rt; multiply_in(&mut sig, &row), Err(Overflow(60097)));
    assert_eq!(rt; sig.weight(), 60096);
    assert_eq!(rt; sig.tensor().level(1), [60096].as_slice());
    Ok(())
}

#[test]
fn exponential_past_the_limit(rt: HostRuntime) -> Result<(), Fail> {
    let shape = Shape::new(1, 8)?;
    let sig = exponential(rt.alloc(), shape, &[60097]);
    assert_eq!(rt; sig.err(), Some(ProductFault::Overflow(60097)));
    Ok(())
}

#[test]
fn weight_decides_overflow(rt: HostRuntime) -> Result<(), Fail> {
    let shape = Shape::new(1, 8)?;
    for (entry, expected) in [(60096, Ok(())), (60097, Err(Overflow(60097)))] {
        let mut sig = Sig::unit(rt.alloc(), shape)?;
        let extended = extend_rows(&mut sig, &[&[entry]]);
        assert_eq!(rt; extended, expected);
        let weight = if extended.is_ok() { 60096 } else { 0 };
        assert_eq!(rt; sig.weight(), weight);
    }
    Ok(())
}
