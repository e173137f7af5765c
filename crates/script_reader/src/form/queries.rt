//! The lines that ask for signatures and logarithms.
ghost use Rattle.std.specs.Prelude.{◌≡◌, ◌==◌, ◌||◌, true, false, map, length, MatchOption};
ghost use Rattle.script_reader.specs.Fields.{field, is_version};
ghost use Rattle.script_reader.specs.Forms.{has_query_fields, version_of, query_form};
ghost use Rattle.script_reader.specs.Reading.{Reads};

use crate::command::{Ask, Command, Kind};
use crate::fault::{LineFault, Reason};
use crate::form::fields::{number_at, tick_at, version_at, word_at};
use crate::said::Said;
use crate::tally::Tally;

/// The greatest end of an interval.
pub(crate) const MOST_END: u64 = 1 << 32;

pub(crate) const MOST_RESOLUTION: u64 = 16;

/// Whether there are as many words as in a query: four, or six of which the fifth is `at`.
fn has_query_fields(words: &[&[u8]]) -> bool
    ensures { result ≡ has_query_fields (map (λ w. w.now) words.now) }
{
    words.len() == 4 || words.len() == 6 && word_at(words, 4) == b"at".as_slice()
}

/// The version that a query names, if it names one; `None` where the word isn't a version's number.
fn named_version(words: &[&[u8]]) -> Option<Option<u64>>
    requires { has_query_fields (map (λ w. w.now) words.now) ≡ true }
    ensures { let spelled = map (λ w. w.now) words.now in
        MatchOption result ((length spelled == 4 || is_version (field 5 spelled)) ≡ false) (λ v. ((length spelled == 4 || is_version (field 5 spelled)) ≡ true) × (v ≡ version_of spelled)) }
{
    if words.len() == 4 {
        return Some(None);
    }
    let version = version_at(words, 5)?;
    Some(Some(version))
}

/// A line that asks for a signature or a logarithm.
pub(crate) fn read_query(tally: &Tally, kind: Kind, words: &[&[u8]]) -> Result<Said, LineFault>
    ensures { Reads (query_form kind) tally.now (map (λ w. w.now) words.now) result }
{
    if tally.sessions == 0 {
        return Err(LineFault::Bad(Reason::Place));
    }
    if !has_query_fields(words) {
        return Err(LineFault::Bad(Reason::Fields));
    }
    let (Some(from), Some(to)) = (tick_at(words, 1, MOST_END), tick_at(words, 2, MOST_END)) else {
        return Err(LineFault::Bad(Reason::Time));
    };
    let (Some(r), Some(version)) = (number_at(words, 3), named_version(words)) else {
        return Err(LineFault::Bad(Reason::Number));
    };
    if from > to {
        return Err(LineFault::Bad(Reason::Interval));
    }
    if r > MOST_RESOLUTION {
        return Err(LineFault::Bad(Reason::Resolution));
    }
    let r = r as u8;
    Ok(Said::Command(Command::Ask(Ask {
        kind,
        from,
        to,
        r,
        version,
    })))
}
