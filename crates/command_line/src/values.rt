//! The values of options: numbers and orders.
ghost use Rattle.std.specs.Prelude.{◌≡◌, ◌∷◌, [], ◌<◌, length, IfOk, MatchOption, option_map};
ghost use Rattle.words.specs.Capacities.{most_capacity};
ghost use Rattle.command_line.specs.Values.{number_in, pieces_of, sessions_in, order_in};

use crate::wish::OrderList;
use spellings::plain_number;
use std::alloc::Global;
use words::{Capacity, Memory};

/// The most digits that a number has.
const MOST_DIGITS: usize = 5;

/// The greatest number of a session.
pub const MOST_SESSION: u32 = 16;

/// The number that one to five decimal digits spell, `None` where the value is none or its number is
/// 0 or exceeds `most`.
pub(crate) fn number_in(value: &str, most: u32) -> Option<u32>
    ensures { result ≡ number_in most value.now }
{
    if value.len() > MOST_DIGITS {
        return None;
    }
    match plain_number(value.as_bytes(), most as u64) {
        Some(number) if number > 0 => Some(number as u32),
        _ => None,
    }
}

/// The capacity that the value spells, `None` where it spells none.
pub(crate) fn capacity_in(value: &str) -> Option<Capacity>
    ensures { result ≡ number_in most_capacity value.now }
{
    Capacity::new(number_in(value, Capacity::MOST)?)
}

// The piece before the first comma, and what follows the comma.
fn split_piece(value: &str) -> Option<(&str, &str)>
    ensures { MatchOption result (pieces_of value.now ≡ value.now ∷ []) (λ r. (pieces_of value.now ≡ r.0.now ∷ pieces_of r.1.now) × (length r.1.now < length value.now)) }
{
    value.split_once(',')
}

// The numbers of sessions, with commas between.
fn sessions_in(alloc: Global, value: &str) -> Result<Option<Vec<u32>>, Memory>
    ensures { IfOk result (λ sessions. option_map (λ v. v.items) sessions ≡ sessions_in (pieces_of value.now)) }
{
    let mut sessions = Vec::new(alloc);
    let mut rest = value;
    while let Some((piece, after)) = split_piece(rest) {
        let Some(session) = number_in(piece, MOST_SESSION) else {
            return Ok(None);
        };
        sessions.push(session)?;
        rest = after;
    }
    let Some(session) = number_in(rest, MOST_SESSION) else {
        return Ok(None);
    };
    sessions.push(session)?;
    Ok(Some(sessions))
}

/// The order that the value spells: `none`, which is the empty one, or numbers of sessions with
/// commas between. `None` where it spells none.
pub(crate) fn order_in(alloc: Global, value: &str) -> Result<Option<OrderList>, Memory>
    ensures { IfOk result (λ order. order ≡ order_in value.now) }
{
    if value == "none" {
        return Ok(Some(OrderList::of(Vec::new(alloc))));
    }
    Ok(sessions_in(alloc, value)?.map(OrderList::of))
}
