ghost use Rattle.std.specs.Prelude.{◌≡◌, ◌≤◌, ◌+◌, ◌-◌, ◌++◌, ◌&&◌, length, eqb, ltb, IfOk, OnOk};
ghost use Rattle.definitions.specs.Words.{IsShape};
ghost use Rattle.definitions.specs.Hall.{degree_of, follows, pairs_with, pairs_from, pairs_of, hall_list};

use definitions::Member;
use std::alloc::{AllocError, Global};
use words::Shape;

/// Whether the member of the number j may stand right of i, and has this degree.
fn is_right(m: Member, degree: u32, i: u32, j: u32) -> bool
    ensures { result ≡ (eqb (degree_of m) degree && (ltb i j && follows i m)) }
{
    m.degree() == degree && i < j && m.follows(i)
}

/// Adds the pairs of degree n with i on the left and a member of degree `rest` on the right.
fn add_pairs_with(
    pairs: &mut Vec<Member>,
    hall: &[Member],
    n: u32,
    rest: u32,
    i: u32,
) -> Result<(), AllocError>
    requires { length hall.now ≤ 1024 }
    ensures { OnOk result (pairs.new.items ≡ pairs.old.items ++ pairs_with hall.now n rest i) }
{
    for (at, m) in hall.iter().enumerate() {
        let j = at as u32 + 1;
        if is_right(*m, rest, i, j) {
            pairs.push(Member::Pair {
                degree: n,
                left: i,
                right: j,
            })?;
        }
    }
    Ok(())
}

/// Adds the pairs of degree n with a member of degree e on the left.
fn add_pairs_from(
    pairs: &mut Vec<Member>,
    hall: &[Member],
    n: u32,
    e: u32,
) -> Result<(), AllocError>
    requires short { length hall.now ≤ 1024 }
    requires within { e ≤ n }
    ensures { OnOk result (pairs.new.items ≡ pairs.old.items ++ pairs_from hall.now n e) }
{
    for (at, m) in hall.iter().enumerate() {
        if m.degree() == e {
            add_pairs_with(pairs, hall, n, n - e, at as u32 + 1)?;
        }
    }
    Ok(())
}

/// The pairs of degree n.
fn pairs_of_degree(alloc: Global, hall: &[Member], n: u32) -> Result<Vec<Member>, AllocError>
    requires { length hall.now ≤ 1024 }
    ensures { IfOk result (λ v. v.items ≡ pairs_of hall.now n) }
{
    let mut pairs = Vec::new(alloc);
    for before in 0..n / 2 {
        add_pairs_from(&mut pairs, hall, n, before + 1)?;
    }
    Ok(pairs)
}

/// The members of a shape's Hall set, by number from 1.
pub(crate) fn grow(alloc: Global, shape: Shape) -> Result<Vec<Member>, AllocError>
    ensures { IfOk result (λ v. v.items ≡ hall_list shape.width shape.depth) }
{
    let mut hall = Vec::new(alloc);
    for _letter in 0..shape.width() {
        hall.push(Member::Letter)?;
    }
    for degree in 1..shape.depth() {
        let pairs = pairs_of_degree(alloc, &hall, degree + 1)?;
        hall.extend_from_slice(&pairs)?;
    }
    Ok(hall)
}
