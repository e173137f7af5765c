//! The pairs of members that have an entry in a table of brackets, in the order in which the entries are made.
ghost use Rattle.std.specs.Prelude.{◌≡◌, ◌+◌, ◌++◌, ◌&&◌, eqb, ltb, flat_map, length, OnOk, IfOk};
ghost use Rattle.definitions.specs.Words.{IsShape};
ghost use Rattle.definitions.specs.Hall.{InHall, hall_list, degree};
ghost use Rattle.lie_bracket.specs.Tables.{down_from, pairs_at, pairs_in_order as listed};

use hall_set::HallSet;
use std::alloc::{AllocError, Global};

/// Whether a < b and the degrees add up to this sum.
fn is_pair_of(hall: &HallSet, sum: u32, a: u32, b: u32) -> bool
    requires left { InHall (hall_list hall.now.width hall.now.depth) a }
    requires right { InHall (hall_list hall.now.width hall.now.depth) b }
    ensures { result ≡ (ltb a b && eqb (degree (hall_list hall.now.width hall.now.depth) a + degree (hall_list hall.now.width hall.now.depth) b) sum) }
{
    a < b && hall.degree(a) + hall.degree(b) == sum
}

/// Adds the pairs of a with a greater number, where the degrees add up to this sum.
fn add_pairs_of(
    pairs: &mut Vec<(u32, u32)>,
    hall: &HallSet,
    sum: u32,
    a: u32,
) -> Result<(), AllocError>
    requires { InHall (hall_list hall.now.width hall.now.depth) a }
    ensures { OnOk result (pairs.new.items ≡ pairs.old.items ++ pairs_at (hall_list hall.now.width hall.now.depth) sum a) }
{
    for before in 0..hall.len() {
        let b = before + 1;
        if is_pair_of(hall, sum, a, b) {
            pairs.push((a, b))?;
        }
    }
    Ok(())
}

/// Adds the pairs whose degrees add up to this sum.
fn add_pairs_at(pairs: &mut Vec<(u32, u32)>, hall: &HallSet, sum: u32) -> Result<(), AllocError>
    ensures { OnOk result (pairs.new.items ≡ pairs.old.items ++ flat_map (pairs_at (hall_list hall.now.width hall.now.depth) sum) (down_from (length (hall_list hall.now.width hall.now.depth)))) }
{
    let len = hall.len();
    for done in 0..len {
        add_pairs_of(pairs, hall, sum, len - done)?;
    }
    Ok(())
}

/// The pairs a < b whose degrees add up to at most the depth: by rising sum, then falling a, then rising b.
pub(crate) fn pairs_in_order(alloc: Global, hall: &HallSet) -> Result<Vec<(u32, u32)>, AllocError>
    ensures value { IfOk result (λ v. v.items ≡ listed hall.now.depth (hall_list hall.now.width hall.now.depth)) }
    ensures shape { IfOk result (λ v. IsShape hall.now) }
{
    let mut pairs = Vec::new(alloc);
    for before in 0..hall.shape().depth() {
        add_pairs_at(&mut pairs, hall, before + 1)?;
    }
    Ok(pairs)
}
