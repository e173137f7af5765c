//! The lines that append, correct and remove rows.
ghost use Rattle.std.specs.Prelude.{◌≡◌, ◌<◌, Some, true, false, map, drop, length, MatchOption};
ghost use Rattle.script_reader.specs.Coordinates.{degree_counts, degree_with, is_count};
ghost use Rattle.script_reader.specs.Limits.{named};
ghost use Rattle.script_reader.specs.Forms.{append_form, correct_form, remove_form};
ghost use Rattle.script_reader.specs.Reading.{IsTally, Reads};

use crate::command::Command;
use crate::coordinates::{degree_with, lie_move};
use crate::fault::{LineFault, Reason};
use crate::form::fields::{entries_from, tick_at, word_at};
use crate::said::Said;
use crate::tally::Tally;
use increments::Name;
use spellings::{is_name, name_text};
use std::alloc::Global;
use versions::Edit;
use words::Shape;

/// The greatest tick of a row.
const MOST_ROW_TICK: u64 = u32::MAX as u64;

/// The least degree up to which there are as many coordinates as words from that place on.
fn degree_of(shape: Shape, counts: &[usize], words: &[&[u8]], place: usize) -> Option<usize>
    requires { counts.now ≡ degree_counts shape }
    ensures { let n = length (drop place (map (λ w. w.now) words.now)) in
        MatchOption result (is_count shape n ≡ false) (λ degree. (is_count shape n ≡ true) × (degree_with shape n ≡ Some degree) × (place < length words.now)) }
{
    degree_with(shape, counts, words.len().saturating_sub(place))
}

/// An append line.
pub(crate) fn read_append(
    alloc: Global,
    tally: &Tally,
    counts: &[usize],
    words: &[&[u8]],
) -> Result<Said, LineFault>
    requires tally { IsTally tally.now }
    requires counted { counts.now ≡ degree_counts (named tally.now.shape) }
    ensures { Reads append_form tally.now (map (λ w. w.now) words.now) result }
{
    let Some(shape) = tally.open_shape() else {
        return Err(LineFault::Bad(Reason::Place));
    };
    let Some(degree) = degree_of(shape, counts, words, 3) else {
        return Err(LineFault::Bad(Reason::Fields));
    };
    if !is_name(word_at(words, 1)) {
        return Err(LineFault::Bad(Reason::Name));
    }
    let Some(tick) = tick_at(words, 2, MOST_ROW_TICK) else {
        return Err(LineFault::Bad(Reason::Time));
    };
    let Some(entries) = entries_from(alloc, words, 3)? else {
        return Err(LineFault::Bad(Reason::Number));
    };
    let name = Name::of(name_text(alloc, word_at(words, 1))?)?;
    let x = lie_move(alloc, shape, counts, degree, entries)?;
    Ok(Said::Command(Command::Edit(Edit::Append { name, tick, x })))
}

/// A correct line.
pub(crate) fn read_correct(
    alloc: Global,
    tally: &Tally,
    counts: &[usize],
    words: &[&[u8]],
) -> Result<Said, LineFault>
    requires tally { IsTally tally.now }
    requires counted { counts.now ≡ degree_counts (named tally.now.shape) }
    ensures { Reads correct_form tally.now (map (λ w. w.now) words.now) result }
{
    let Some(shape) = tally.open_shape() else {
        return Err(LineFault::Bad(Reason::Place));
    };
    let Some(degree) = degree_of(shape, counts, words, 2) else {
        return Err(LineFault::Bad(Reason::Fields));
    };
    if !is_name(word_at(words, 1)) {
        return Err(LineFault::Bad(Reason::Name));
    }
    let Some(entries) = entries_from(alloc, words, 2)? else {
        return Err(LineFault::Bad(Reason::Number));
    };
    let name = Name::of(name_text(alloc, word_at(words, 1))?)?;
    let x = lie_move(alloc, shape, counts, degree, entries)?;
    Ok(Said::Command(Command::Edit(Edit::Correct { name, x })))
}

/// A remove line.
pub(crate) fn read_remove(alloc: Global, tally: &Tally, words: &[&[u8]]) -> Result<Said, LineFault>
    ensures { Reads remove_form tally.now (map (λ w. w.now) words.now) result }
{
    if tally.sessions == 0 {
        return Err(LineFault::Bad(Reason::Place));
    }
    if words.len() != 2 {
        return Err(LineFault::Bad(Reason::Fields));
    }
    if !is_name(word_at(words, 1)) {
        return Err(LineFault::Bad(Reason::Name));
    }
    let name = Name::of(name_text(alloc, word_at(words, 1))?)?;
    Ok(Said::Command(Command::Edit(Edit::Remove { name })))
}
