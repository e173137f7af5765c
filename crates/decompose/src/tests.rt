use crate::{pieces, round};
use std::test::Fail;

#[test]
fn pieces_of_intervals(rt: HostRuntime) -> Result<(), Fail> {
    let quarter_to_three = pieces(rt.alloc(), 16384, 196608)?;
    let mut nodes = Vec::new(rt.alloc());
    for node in quarter_to_three.iter() {
        nodes.push((node.k(), node.n()))?;
    }
    assert_eq!(rt;
        nodes.as_slice(),
        [(1, 2), (1, 1), (1, 0), (2, 0)].as_slice()
    );
    let all = pieces(rt.alloc(), 0, 4294967296)?;
    assert_eq!(rt; all.len(), 1);
    assert_eq!(rt; (all[0].k(), all[0].n()), (0, -16));
    assert_eq!(rt; pieces(rt.alloc(), 1, 4294967295)?.len(), 62);
    assert!(rt; pieces(rt.alloc(), 5, 5)?.is_empty());
    Ok(())
}

#[test]
fn ends_are_rounded_down(rt: HostRuntime) {
    for (a, b, r, from, to) in [
        (5, 7, 16, 5, 7),
        (5, 7, 15, 4, 6),
        (65535, 131071, 0, 0, 65536),
        (4294967295, 4294967296, 0, 4294901760, 4294967296),
    ] {
        assert_eq!(rt; round(a, b, r), (from, to));
    }
}
