use crate::Node;
use std::test::Fail;

#[test]
fn spans(rt: HostRuntime) {
    for (k, n, low, high) in [
        (0, -16, 0, 4294967296),
        (1, 2, 16384, 32768),
        (2, 0, 131072, 196608),
        (4294967295, 16, 4294967295, 4294967296),
    ] {
        let span = Node::new(k, n).map(|node| (node.low(), node.high()));
        assert_eq!(rt; span, Some((low, high)));
    }
}

#[test]
fn nodes_that_are_refused(rt: HostRuntime) {
    for (k, n) in [(0, -17), (0, 17), (1, -16), (65536, 0), (4294967296, 16)] {
        assert_eq!(rt; Node::new(k, n), None);
    }
}

#[test]
fn halves_and_parents(rt: HostRuntime) -> Result<(), Fail> {
    let node = Node::new(5, 1).ok_or("refused")?;
    assert_eq!(rt; (node.k(), node.n()), (5, 1));
    assert_eq!(rt; node.left(), Node::new(10, 2));
    assert_eq!(rt; node.right(), Node::new(11, 2));
    assert_eq!(rt; node.parent(), Node::new(2, 0));
    let tick = Node::new(7, 16).ok_or("refused")?;
    assert!(rt; tick.holds(7));
    assert!(rt; !tick.holds(8));
    assert_eq!(rt; tick.left(), None);
    assert_eq!(rt; tick.right(), None);
    let line = Node::new(0, -16).ok_or("refused")?;
    assert_eq!(rt; line.parent(), None);
    Ok(())
}
