//! The line that watches an interval.
ghost use Rattle.std.specs.Prelude.{◌≡◌, map};
ghost use Rattle.script_reader.specs.Forms.{watch_form};
ghost use Rattle.script_reader.specs.Reading.{Reads};

use crate::fault::{LineFault, Reason};
use crate::form::fields::{number_at, tick_at};
use crate::form::queries::{MOST_END, MOST_RESOLUTION};
use crate::said::Said;
use crate::tally::Tally;
use decompose::round;
use watches::Interval;

const MOST_WATCHES: u64 = 64;

/// A line that watches an interval.
pub(crate) fn read_watch(tally: &Tally, words: &[&[u8]]) -> Result<Said, LineFault>
    ensures { Reads watch_form tally.now (map (λ w. w.now) words.now) result }
{
    if tally.shape.is_none() {
        return Err(LineFault::Bad(Reason::Place));
    }
    if words.len() != 4 {
        return Err(LineFault::Bad(Reason::Fields));
    }
    let (Some(from), Some(to)) = (tick_at(words, 1, MOST_END), tick_at(words, 2, MOST_END)) else {
        return Err(LineFault::Bad(Reason::Time));
    };
    let Some(r) = number_at(words, 3) else {
        return Err(LineFault::Bad(Reason::Number));
    };
    if from > to {
        return Err(LineFault::Bad(Reason::Interval));
    }
    if r > MOST_RESOLUTION {
        return Err(LineFault::Bad(Reason::Resolution));
    }
    if tally.watches >= MOST_WATCHES {
        return Err(LineFault::Bad(Reason::Watches));
    }
    let (from, to) = round(from, to, r as u8);
    Ok(Said::Watch(Interval { from, to }))
}
