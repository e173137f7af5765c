use crate::HallSet;
use std::alloc::Global;
use std::test::Fail;
use words::Shape;

#[test]
fn members_of_depth_four(rt: HostRuntime) -> Result<(), Fail> {
    let set = HallSet::build(rt.alloc(), Shape::new(2, 4)?)?;
    assert_eq!(rt; set.len(), 8);
    assert_eq!(rt; set.members().len(), 8);
    assert_eq!(rt; set.shape().depth(), 4);
    assert_eq!(rt; set.degree(7), 4);
    assert_eq!(rt; set.parents(7), Some((2, 4)));
    assert_eq!(rt; set.find(1, 5), None);
    assert_eq!(rt; set.find(0, 9), None);
    assert_eq!(rt; set.text(rt.alloc(), 7)?.as_str(), "[2,[1,[1,2]]]");
    Ok(())
}

#[test]
fn table_of_depth_five(rt: HostRuntime) -> Result<(), Fail> {
    let set = HallSet::build(rt.alloc(), Shape::new(2, 5)?)?;
    assert_eq!(rt; set.len(), 14);
    assert_eq!(rt; set.parents(1), None);
    assert_eq!(rt; set.parents(2), None);
    let mut text = String::new(rt.alloc());
    for (h, i, j) in [
        (3, 1, 2),
        (4, 1, 3),
        (5, 2, 3),
        (6, 1, 4),
        (7, 2, 4),
        (8, 2, 5),
        (9, 1, 6),
        (10, 2, 6),
        (11, 2, 7),
        (12, 2, 8),
        (13, 3, 4),
        (14, 3, 5),
    ] {
        assert!(rt; 1 <= h && h <= set.len());
        assert_eq!(rt; set.parents(h), Some((i, j)));
        assert_eq!(rt; set.find(i, j), Some(h));
        set.write_text(h, &mut text)?;
        text.push_str(" ")?;
    }
    assert_eq!(rt;
        text.as_str(),
        "[1,2] [1,[1,2]] [2,[1,2]] [1,[1,[1,2]]] [2,[1,[1,2]]] [2,[2,[1,2]]] [1,[1,[1,[1,2]]]] [2,[1,[1,[1,2]]]] [2,[2,[1,[1,2]]]] [2,[2,[2,[1,2]]]] [[1,2],[1,[1,2]]] [[1,2],[2,[1,2]]] "
    );
    Ok(())
}

/// The text of a member by its number.
fn text_of(alloc: Global, set: &HallSet, h: u32) -> Result<String, Fail> {
    if h < 1 || h > set.len() {
        return Err("no such member")?;
    }
    Ok(set.text(alloc, h)?)
}

#[test]
fn texts_of_each_degree(rt: HostRuntime) -> Result<(), Fail> {
    let set = HallSet::build(rt.alloc(), Shape::new(2, 8)?)?;
    assert_eq!(rt; set.len(), 71);
    for (h, text) in [
        (1, "1"),
        (3, "[1,2]"),
        (5, "[2,[1,2]]"),
        (15, "[1,[1,[1,[1,[1,2]]]]]"),
        (24, "[1,[1,[1,[1,[1,[1,2]]]]]]"),
        (42, "[1,[1,[1,[1,[1,[1,[1,2]]]]]]]"),
    ] {
        assert_eq!(rt; text_of(rt.alloc(), &set, h)?.as_str(), text);
    }
    Ok(())
}

#[test]
fn texts_of_twelve_letters(rt: HostRuntime) -> Result<(), Fail> {
    let set = HallSet::build(rt.alloc(), Shape::new(12, 3)?)?;
    assert_eq!(rt; set.len(), 650);
    for (h, text) in [
        (12, "12"),
        (13, "[1,2]"),
        (78, "[11,12]"),
        (79, "[1,[1,2]]"),
        (650, "[12,[11,12]]"),
    ] {
        assert_eq!(rt; text_of(rt.alloc(), &set, h)?.as_str(), text);
    }
    Ok(())
}
