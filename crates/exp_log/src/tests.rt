ghost use Rattle.std.specs.Prelude.{◌≡◌, ◌<◌};

use crate::{LogFault, log};
use scaled_tensor::LogTensor;
use std::process::Abort;
use std::test::Fail;
use tensor_product::{Overflow, Sig, extend_row};
use words::{Free, Shape, Steps};

/// Extends a signature by rows, up to the first that does not fit.
fn extend_rows(sig: &mut Sig, rows: &[&[i64]]) -> Result<(), Overflow> {
    let mut steps = Steps::new(Free);
    for row in rows {
        if row.len() == sig.tensor().shape().width() as usize {
            extend_row(sig, row, &mut steps)?;
        }
    }
    Ok(())
}

fn levels_are(rt: &impl Abort, log: &LogTensor, expected: &[&[i128]]) {
    let depth = log.tensor().shape().depth();
    assert_eq!(rt; expected.len(), depth as usize + 1);
    for k in 0..=depth {
        assert_eq!(rt; log.tensor().level(k), expected[k as usize]);
    }
}

#[test]
fn two_rows(rt: HostRuntime) -> Result<(), Fail> {
    let mut sig = Sig::unit(rt.alloc(), Shape::new(2, 2)?)?;
    extend_rows(&mut sig, &[&[1, 0], &[0, 1]])?;
    let log = log(rt.alloc(), &sig)?;
    levels_are(&rt, &log, &[&[0], &[1, 1], &[0, 2, -2, 0]]);
    assert_eq!(rt; log.weight(), 2);
    Ok(())
}

/// The first terms of the Baker-Campbell-Hausdorff series, over 1, 4 and 36.
#[test]
fn third_level_of_two_rows(rt: HostRuntime) -> Result<(), Fail> {
    let mut sig = Sig::unit(rt.alloc(), Shape::new(2, 3)?)?;
    extend_rows(&mut sig, &[&[1, 0], &[0, 1]])?;
    let log = log(rt.alloc(), &sig)?;
    levels_are(
        &rt,
        &log,
        &[&[0], &[1, 1], &[0, 2, -2, 0], &[0, 3, -6, 3, 3, -6, 3, 0]],
    );
    Ok(())
}

#[test]
fn greatest_row_of_one_letter(rt: HostRuntime) -> Result<(), Fail> {
    let mut sig = Sig::unit(rt.alloc(), Shape::new(1, 8)?)?;
    extend_rows(&mut sig, &[&[6184]])?;
    let log = log(rt.alloc(), &sig)?;
    levels_are(
        &rt,
        &log,
        &[&[0], &[6184], &[0], &[0], &[0], &[0], &[0], &[0], &[0]],
    );
    assert_eq!(rt; log.weight(), 6184);
    Ok(())
}

#[test]
fn row_past_the_limit(rt: HostRuntime) -> Result<(), Fail> {
    let mut sig = Sig::unit(rt.alloc(), Shape::new(1, 8)?)?;
    extend_rows(&mut sig, &[&[6185]])?;
    assert_eq!(rt; log(rt.alloc(), &sig).err(), Some(LogFault::Overflow(6185)));
    Ok(())
}
