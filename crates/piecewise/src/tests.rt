ghost use Rattle.std.specs.Prelude.{◌≡◌, All, IfOk};
ghost use Rattle.definitions.specs.Hall.{InHall, hall_list};

use crate::{UnfoldFault, WholeFault, unfold, whole};
use hall_set::HallSet;
use lie_bracket::{LieElement, Term};
use scaled_tensor::Tensor;
use std::alloc::Global;
use std::process::Abort;
use std::test::Fail;
use words::Shape;

fn term(factor: i128, number: u32) -> Term {
    Term { factor, number }
}

fn element(alloc: Global, hall: &HallSet, terms: &[Term]) -> Result<LieElement, Fail>
    ensures { IfOk result (λ z. All (λ t. InHall (hall_list hall.now.width hall.now.depth) t.number) z) }
{
    Ok(LieElement::of(hall, Vec::from_slice(alloc, terms)?)?)
}

fn levels_are(rt: &impl Abort, tensor: &Tensor, expected: &[&[i128]]) {
    let depth = tensor.shape().depth();
    assert_eq!(rt; expected.len(), depth as usize + 1);
    for k in 0..=depth {
        assert_eq!(rt; tensor.level(k), expected[k as usize]);
    }
}

/// The logarithm of two steps, along one letter and then along the other.
#[test]
fn two_steps(rt: HostRuntime) -> Result<(), Fail> {
    let hall = HallSet::build(rt.alloc(), Shape::new(2, 2)?)?;
    let z = element(rt.alloc(), &hall, &[term(1, 1), term(1, 2), term(4, 3)])?;
    let series = unfold(rt.alloc(), &hall, &z, 2)?;
    levels_are(&rt, &series, &[&[1], &[1, 1], &[1, 2, 0, 1]]);
    let none = element(rt.alloc(), &hall, &[])?;
    let still = unfold(rt.alloc(), &hall, &none, 0)?;
    levels_are(&rt, &still, &[&[1], &[0, 0], &[0, 0, 0, 0]]);
    Ok(())
}

#[test]
fn refused_coordinates(rt: HostRuntime) -> Result<(), Fail> {
    let hall = HallSet::build(rt.alloc(), Shape::new(2, 2)?)?;
    for (terms, fault) in [
        (&[term(1, 3)][..], UnfoldFault::Split(2)),
        (&[term(2, 3)], UnfoldFault::Whole(2)),
        (&[term(3, 1)], UnfoldFault::Log(1)),
        (&[term(1, 1), term(1, 2), term(32, 3)], UnfoldFault::Size(2)),
        (&[term(1, 1), term(1, 2), term(40, 3)], UnfoldFault::Log(2)),
        (&[term(1 << 126, 3)], UnfoldFault::Expand(2)),
    ] {
        let z = element(rt.alloc(), &hall, terms)?;
        assert_eq!(rt; unfold(rt.alloc(), &hall, &z, 2).err(), Some(fault));
    }
    Ok(())
}

#[test]
fn greatest_weight_of_one_letter(rt: HostRuntime) -> Result<(), Fail> {
    let hall = HallSet::build(rt.alloc(), Shape::new(1, 8)?)?;
    let none = element(rt.alloc(), &hall, &[])?;
    let still = unfold(rt.alloc(), &hall, &none, 5671)?;
    levels_are(
        &rt,
        &still,
        &[&[1], &[0], &[0], &[0], &[0], &[0], &[0], &[0], &[0]],
    );
    assert_eq!(rt;
        unfold(rt.alloc(), &hall, &none, 5672).err(),
        Some(UnfoldFault::Overflow(5672))
    );
    Ok(())
}

#[test]
fn whole_of_two_parts(rt: HostRuntime) -> Result<(), Fail> {
    let hall = HallSet::build(rt.alloc(), Shape::new(2, 2)?)?;
    let first = element(rt.alloc(), &hall, &[term(1, 1)])?;
    let second = element(rt.alloc(), &hall, &[term(1, 2)])?;
    let joined = whole(rt.alloc(), &hall, &[(first, 1), (second, 1)])?;
    levels_are(&rt, &joined, &[&[1], &[1, 1], &[1, 2, 0, 1]]);
    let none = whole(rt.alloc(), &hall, &[])?;
    levels_are(&rt, &none, &[&[1], &[0, 0], &[0, 0, 0, 0]]);
    Ok(())
}

/// A part that can't be unfolded comes before an overflow of the sum of the weights.
#[test]
fn refused_parts(rt: HostRuntime) -> Result<(), Fail> {
    let hall = HallSet::build(rt.alloc(), Shape::new(2, 2)?)?;
    let heavy = (1 << 62) - 1;
    for (second, fault) in [
        (term(1, 3), WholeFault::Part(1, UnfoldFault::Split(2))),
        (term(1, 2), WholeFault::Overflow(3 * heavy)),
    ] {
        let parts = [
            (element(rt.alloc(), &hall, &[term(1, 1)])?, heavy),
            (element(rt.alloc(), &hall, &[second])?, heavy),
            (element(rt.alloc(), &hall, &[term(1, 2)])?, heavy),
        ];
        assert_eq!(rt; whole(rt.alloc(), &hall, &parts).err(), Some(fault));
    }
    Ok(())
}

/// The coordinates of the logarithms of the three parts of a list of rows, each with the weight of its rows, and the levels 1 to 3 of the
/// signature of all of them, by fractions.
const PARTITIONS: [([([i128; 5], u32); 3], [i128; 2], [i128; 4], [i128; 8]); 10] = [
    (
        [
            ([0, -3, 24, -216, 162], 5),
            ([3, 1, 0, 0, 0], 3),
            ([-1, 1, 0, 0, 0], 1),
        ],
        [2, -1],
        [4, 14, -18, 1],
        [8, 16, 52, 20, -80, -82, 68, -1],
    ),
    (
        [
            ([1, -2, 0, 0, 0], 2),
            ([-3, 0, 0, 0, 0], 3),
            ([-6, -1, -36, 0, 243], 6),
        ],
        [-8, -3],
        [64, -1, 49, 9],
        [-512, 49, -74, -2, -551, 13, -227, -27],
    ),
    (
        [
            ([-2, 0, 24, -216, 324], 6),
            ([2, 2, 0, 0, 0], 2),
            ([-5, -1, 24, 18, 126], 7),
        ],
        [-5, 1],
        [25, 13, -23, 1],
        [-125, -91, -13, -25, 179, 89, -79, 1],
    ),
    (
        [
            ([1, 3, 0, 0, 0], 3),
            ([-1, 0, 0, 0, 0], 1),
            ([1, -3, 0, 0, 0], 3),
        ],
        [1, 0],
        [1, 0, 0, 0],
        [1, 0, 0, -9, 0, 18, -9, 0],
    ),
    (
        [
            ([0, 0, -20, -90, -360], 7),
            ([-4, 2, 20, 360, 0], 7),
            ([-8, 2, 16, -144, 72], 8),
        ],
        [-12, 4],
        [144, -36, -60, 16],
        [-1728, 329, 638, -131, 761, -170, -275, 64],
    ),
    (
        [
            ([4, 0, 12, 162, -54], 5),
            ([-3, 2, -20, -45, 180], 4),
            ([2, 3, 0, 0, 0], 3),
        ],
        [3, 5],
        [9, 20, 10, 25],
        [27, 68, 44, 149, 23, 2, 74, 125],
    ),
    (
        [
            ([-3, 1, 0, 0, 0], 3),
            ([0, 2, 8, 36, -36], 3),
            ([-4, -2, 24, 108, 216], 4),
        ],
        [-7, 1],
        [49, 13, -27, 1],
        [-343, -195, 117, -53, 225, 145, -113, 1],
    ),
    (
        [
            ([1, -3, 0, -108, 108], 7),
            ([-6, 5, -12, 0, 27], 6),
            ([3, 4, 0, 360, 180], 8),
        ],
        [-2, 6],
        [4, -54, 30, 36],
        [-8, 290, -256, -655, 38, 338, 101, 216],
    ),
    (
        [
            ([2, 3, 12, 0, -81], 4),
            ([-6, 2, 48, 0, 432], 6),
            ([-1, -1, 0, 0, 0], 5),
        ],
        [-5, 4],
        [25, 26, -66, 16],
        [-125, -52, -286, 38, 638, 236, -514, 64],
    ),
    (
        [
            ([6, 3, 64, 0, -720], 7),
            ([-1, 4, -8, 18, 0], 4),
            ([-4, -2, 24, -108, 108], 5),
        ],
        [1, 5],
        [1, 70, -60, 25],
        [1, 570, -930, 398, 375, 254, -577, 125],
    ),
];

/// The element of (2, 3) with these coordinates.
fn element_of(alloc: Global, hall: &HallSet, coordinates: [i128; 5]) -> Result<LieElement, Fail>
    ensures { IfOk result (λ z. All (λ t. InHall (hall_list hall.now.width hall.now.depth) t.number) z) }
{
    let [first, second, third, fourth, fifth] = coordinates;
    let mut terms = Vec::new(alloc);
    for term in [
        term(first, 1),
        term(second, 2),
        term(third, 3),
        term(fourth, 4),
        term(fifth, 5),
    ] {
        if term.factor != 0 {
            terms.push(term)?;
        }
    }
    Ok(LieElement::of(hall, terms)?)
}

/// Joins three parts, and compares the levels of the whole.
fn joined(
    rt: &impl Abort,
    alloc: Global,
    hall: &HallSet,
    parts: [([i128; 5], u32); 3],
    levels: &[&[i128]],
) -> Result<(), Fail> {
    let [(a, u), (b, v), (c, w)] = parts;
    let first = element_of(alloc, hall, a)?;
    let second = element_of(alloc, hall, b)?;
    let third = element_of(alloc, hall, c)?;
    let parts = [(first, u as u128), (second, v as u128), (third, w as u128)];
    let series = whole(alloc, hall, &parts)?;
    levels_are(rt, &series, levels);
    Ok(())
}

#[test]
fn wholes_of_three_parts(rt: HostRuntime) -> Result<(), Fail> {
    let hall = HallSet::build(rt.alloc(), Shape::new(2, 3)?)?;
    for (parts, first, second, third) in PARTITIONS {
        let levels: [&[i128]; 4] = [&[1], &first, &second, &third];
        joined(&rt, rt.alloc(), &hall, parts, &levels)?;
    }
    Ok(())
}
