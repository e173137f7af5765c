//! Content lines: each is read by the form of its first word.
ghost use Rattle.std.specs.Prelude.{◌≡◌, None, map, MatchResult};
ghost use Rattle.std.specs.List.{list_all};
ghost use Rattle.script_reader.specs.Fields.{field};
ghost use Rattle.script_reader.specs.Coordinates.{degree_counts};
ghost use Rattle.script_reader.specs.Limits.{named};
ghost use Rattle.script_reader.specs.Forms.{keyword_of, form_of};
ghost use Rattle.script_reader.specs.Lines.{is_allowed_byte, reason_after};
ghost use Rattle.script_reader.specs.Reading.{IsRefusal, IsTally, Reads, IsSaid};

mod edits;
pub(crate) mod fields;
mod intervals;
pub(crate) mod openings;
mod partitions;
mod queries;

use crate::command::Kind;
use crate::fault::{LineFault, Reason};
use crate::form::edits::{read_append, read_correct, read_remove};
use crate::form::fields::word_at;
use crate::form::intervals::read_watch;
use crate::form::openings::{read_session, read_shape};
use crate::form::partitions::read_parts;
use crate::form::queries::read_query;
use crate::keyword::{Keyword, keyword_of};
use crate::said::Said;
use crate::tally::{Tally, limit_reason};
use spellings::words_in;
use std::alloc::Global;

/// A line that begins with this keyword.
fn read_form(
    alloc: Global,
    tally: &Tally,
    counts: &[usize],
    keyword: Keyword,
    words: &[&[u8]],
) -> Result<Said, LineFault>
    requires tally { IsTally tally.now }
    requires counted { counts.now ≡ degree_counts (named tally.now.shape) }
    ensures { Reads (form_of keyword) tally.now (map (λ w. w.now) words.now) result }
{
    match keyword {
        Keyword::Shape => read_shape(tally, words),
        Keyword::Session => read_session(tally, words),
        Keyword::Watch => read_watch(tally, words),
        Keyword::Append => read_append(alloc, tally, counts, words),
        Keyword::Correct => read_correct(alloc, tally, counts, words),
        Keyword::Remove => read_remove(alloc, tally, words),
        Keyword::Sig => read_query(tally, Kind::Sig, words),
        Keyword::Log => read_query(tally, Kind::Log, words),
        Keyword::Parts => read_parts(alloc, tally, words),
    }
}

/// The keyword that the first word is.
fn first_keyword(words: &[&[u8]]) -> Option<Keyword>
    ensures { result ≡ keyword_of (field 0 (map (λ w. w.now) words.now)) }
{
    if words.is_empty() {
        return None;
    }
    keyword_of(word_at(words, 0))
}

/// Whether the byte may stand in a content line: printable, or a tab.
fn is_allowed_byte(byte: u8) -> bool
    ensures { result ≡ is_allowed_byte byte }
{
    matches!(byte, b'\t' | b' '..=b'~')
}

/// Whether each byte may stand in a content line.
pub fn has_allowed_bytes(line: &[u8]) -> bool
    ensures { result ≡ list_all is_allowed_byte line.now }
{
    line.iter().all(|byte| is_allowed_byte(*byte))
}

/// Reads a content line after lines with this tally; the counts are those of the coordinates of the shape.
pub(crate) fn read_line(
    alloc: Global,
    tally: &Tally,
    counts: &[usize],
    line: &[u8],
) -> Result<Said, LineFault>
    requires tally { IsTally tally.now }
    requires counted { counts.now ≡ degree_counts (named tally.now.shape) }
    ensures { let due = reason_after tally.now line.now in
        MatchResult result (λ said. (due ≡ None) × IsSaid tally.now line.now said) (λ e. IsRefusal due e) }
{
    if !has_allowed_bytes(line) {
        return Err(LineFault::Bad(Reason::Byte));
    }
    let words = words_in(alloc, line)?;
    let Some(keyword) = first_keyword(&words) else {
        return Err(LineFault::Bad(Reason::Keyword));
    };
    let said = read_form(alloc, tally, counts, keyword, &words)?;
    if let Some(reason) = limit_reason(tally, said.commands()) {
        return Err(LineFault::Bad(reason));
    }
    Ok(said)
}
