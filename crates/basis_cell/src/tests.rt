use crate::{BasisCell, Held};
use std::test::Fail;
use words::Shape;

#[test]
fn one_shape_is_shared(rt: HostRuntime) -> Result<(), Fail> {
    let cell = BasisCell::new(rt.alloc());
    for _call in 0..2 {
        let held = cell.tables(rt.alloc(), Shape::new(2, 4)?)?;
        assert!(rt; matches!(&held, Held::Shared(_)));
        assert_eq!(rt; held.get().hall().len(), 8);
    }
    let held = cell.tables(rt.alloc(), Shape::new(2, 2)?)?;
    assert!(rt; matches!(&held, Held::Own(_)));
    assert_eq!(rt; held.get().hall().len(), 3);
    Ok(())
}

#[test]
fn every_width_at_its_greatest_depth(rt: HostRuntime) -> Result<(), Fail> {
    for (width, depth, members) in [
        (1, 8, 1),
        (2, 8, 71),
        (3, 6, 196),
        (4, 5, 294),
        (5, 4, 205),
        (6, 4, 406),
        (7, 3, 140),
        (8, 3, 204),
        (9, 3, 285),
        (10, 3, 385),
        (11, 3, 506),
        (12, 3, 650),
    ] {
        let cell = BasisCell::new(rt.alloc());
        let held = cell.tables(rt.alloc(), Shape::new(width, depth)?)?;
        assert_eq!(rt; held.get().hall().len(), members);
    }
    Ok(())
}
