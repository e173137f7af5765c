//! The coordinates of Lie elements: how many there are up to each degree, and the move that they make.
ghost use Rattle.std.specs.Prelude.{◌≡◌, ◌<◌, ◌≤◌, ◌==◌, nat_le, Some, length, filter, IfOk, IfSome};
ghost use Rattle.std.specs.List.{position};
ghost use Rattle.definitions.specs.Hall.{degree_of};
ghost use Rattle.definitions.specs.Moves.{IsMove};
ghost use Rattle.script_reader.specs.Coordinates.{degree_counts, degree_with, cut_from, lie_move, AreEnds};

use hall_set::{HallSet, Member};
use std::alloc::{AllocError, Global};
use words::{Entries, Memory, Move, Shape};

/// How many of the members have at most this degree.
fn members_to(members: &[Member], degree: u32) -> usize
    ensures { result ≡ length (filter (λ m. nat_le (degree_of m) degree) members.now) }
{
    members
        .iter()
        .filter(|member| member.degree() <= degree)
        .count()
}

/// How many members of the Hall set of a shape have degree at most 1, 2, .. up to its depth.
pub fn counts_of(alloc: Global, shape: Shape) -> Result<Vec<usize>, Memory>
    ensures { IfOk result (λ counts. counts.items ≡ degree_counts shape) }
{
    let set = HallSet::build(alloc, shape)?;
    let mut counts = Vec::new(alloc);
    for before in 0..shape.depth() {
        counts.push(members_to(set.members(), before + 1))?;
    }
    Ok(counts)
}

/// The place of the first count that is so great.
fn place_of(counts: &[usize], coordinates: usize) -> Option<usize>
    ensures value { result ≡ position (λ count. count == coordinates) counts.now }
    ensures within { IfSome result (λ place. place < length counts.now) }
{
    counts.iter().position(|count| *count == coordinates)
}

/// The least degree up to which a shape has so many coordinates, if there is one.
#[tactic(auto, unfolding(crate::specs::Coordinates::degree_with))]
pub fn degree_with(shape: Shape, counts: &[usize], coordinates: usize) -> Option<usize>
    requires { counts.now ≡ degree_counts shape }
    ensures value { result ≡ degree_with shape coordinates }
    ensures some { IfSome result (λ _. 1 ≤ coordinates) }
{
    let _depth = shape.depth();
    let place = place_of(counts, coordinates)?;
    Some(place + 1)
}

/// The coordinates in parts, which end at these places.
fn cut(alloc: Global, places: &[usize], coordinates: Vec<i64>) -> Result<Vec<Entries>, AllocError>
    requires { AreEnds 0 places.now (length coordinates.items) }
    ensures { IfOk result (λ parts. parts.items ≡ cut_from 0 places.now coordinates.items) }
{
    let mut parts = Vec::with_capacity(alloc, places.len())?;
    let mut rest = coordinates;
    let mut from = 0;
    for place in places {
        let after = rest.split_off(*place - from)?;
        parts.push(Entries::of(rest))?;
        rest = after;
        from = *place;
    }
    Ok(parts)
}

/// The move with these coordinates, which are all up to this degree.
pub fn lie_move(
    alloc: Global,
    shape: Shape,
    counts: &[usize],
    degree: usize,
    coordinates: Vec<i64>,
) -> Result<Move, Memory>
    requires counted { counts.now ≡ degree_counts shape }
    requires due { degree_with shape (length coordinates.items) ≡ Some degree }
    ensures { IfOk result (λ x. IsMove shape x × (x ≡ lie_move shape coordinates.items)) }
{
    let _depth = shape.depth();
    let parts = cut(alloc, &counts[..degree], coordinates)?;
    match Move::of(alloc, shape, parts)? {
        Some(x) => Ok(x),
        None => unreachable!(),
    }
}
