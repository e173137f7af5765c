//! The words of a line: names, numbers, times and entries.
ghost use Rattle.std.specs.Prelude.{◌≡◌, ◌-◌, ◌^◌, ◌<◌, ◌≤◌, true, false, map, drop, length, IfOk, MatchOption};
ghost use Rattle.spellings.specs.Numbers.{value_of};
ghost use Rattle.script_reader.specs.Fields.{field, is_number, is_version, is_tick, are_ticks, are_entries, tick_or_zero, ticks_of, entries_of};

use spellings::{plain_number, tick, whole_number};
use std::alloc::{AllocError, Global};

/// The greatest value of a plain field.
const MOST_NUMBER: u64 = u32::MAX as u64;

/// The word at that place.
pub fn word_at<'a>(words: &[&'a [u8]], place: usize) -> &'a [u8]
    requires { place < length words.now }
    ensures { result.now ≡ field place (map (λ w. w.now) words.now) }
{
    words[place]
}

/// The value of a plain field, `None` where it isn't one.
pub(crate) fn number_at(words: &[&[u8]], place: usize) -> Option<u64>
    requires { place < length words.now }
    ensures { let word = field place (map (λ w. w.now) words.now) in
        MatchOption result (is_number word ≡ false) (λ n. (is_number word ≡ true) × (n ≡ value_of word) × (n ≤ 2 ^ 32 - 1)) }
{
    plain_number(word_at(words, place), MOST_NUMBER)
}

/// The value of a version's number, `None` where the word isn't one.
pub(crate) fn version_at(words: &[&[u8]], place: usize) -> Option<u64>
    requires { place < length words.now }
    ensures { let word = field place (map (λ w. w.now) words.now) in
        MatchOption result (is_version word ≡ false) (λ v. (is_version word ≡ true) × (v ≡ value_of word)) }
{
    plain_number(word_at(words, place), u64::MAX)
}

/// The tick of a time, `None` where the word isn't one or the tick is later than `most`.
pub(crate) fn tick_at(words: &[&[u8]], place: usize, most: u64) -> Option<u64>
    requires { place < length words.now }
    ensures { let word = field place (map (λ w. w.now) words.now) in
        MatchOption result (is_tick most word ≡ false) (λ t. (is_tick most word ≡ true) × (t ≡ tick_or_zero most word) × (t ≤ most)) }
{
    tick(word_at(words, place), most)
}

/// The ticks of the times that the words spell, `None` where one is no time or its tick is later than `most`.
fn ticks_in(alloc: Global, words: &[&[u8]], most: u64) -> Result<Option<Vec<u64>>, AllocError>
    ensures { let spelled = map (λ w. w.now) words.now in
        IfOk result (λ ticks. MatchOption ticks (are_ticks most spelled ≡ false) (λ v. (are_ticks most spelled ≡ true) × (v.items ≡ ticks_of most spelled))) }
{
    let mut ticks = Vec::new(alloc);
    for word in words {
        let Some(end) = tick(word, most) else {
            return Ok(None);
        };
        ticks.push(end)?;
    }
    Ok(Some(ticks))
}

/// The ticks of the times that the words from a place on spell, `None` where one is no time or its tick is later than `most`.
pub(crate) fn ticks_from(
    alloc: Global,
    words: &[&[u8]],
    place: usize,
    most: u64,
) -> Result<Option<Vec<u64>>, AllocError>
    requires { place ≤ length words.now }
    ensures { let spelled = drop place (map (λ w. w.now) words.now) in
        IfOk result (λ ticks. MatchOption ticks (are_ticks most spelled ≡ false) (λ v. (are_ticks most spelled ≡ true) × (v.items ≡ ticks_of most spelled))) }
{
    ticks_in(alloc, &words[place..], most)
}

/// The whole numbers that the words spell, `None` where one isn't in range.
pub fn entries_in(alloc: Global, words: &[&[u8]]) -> Result<Option<Vec<i64>>, AllocError>
    ensures { let spelled = map (λ w. w.now) words.now in
        IfOk result (λ entries. MatchOption entries (are_entries spelled ≡ false) (λ v. (are_entries spelled ≡ true) × (v.items ≡ entries_of spelled))) }
{
    let mut entries = Vec::new(alloc);
    for word in words {
        let Some(entry) = whole_number(word) else {
            return Ok(None);
        };
        entries.push(entry)?;
    }
    Ok(Some(entries))
}

/// The whole numbers that the words from a place on spell, `None` where one isn't in range.
pub(crate) fn entries_from(
    alloc: Global,
    words: &[&[u8]],
    place: usize,
) -> Result<Option<Vec<i64>>, AllocError>
    requires { place ≤ length words.now }
    ensures { let spelled = drop place (map (λ w. w.now) words.now) in
        IfOk result (λ entries. MatchOption entries (are_entries spelled ≡ false) (λ v. (are_entries spelled ≡ true) × (v.items ≡ entries_of spelled))) }
{
    entries_in(alloc, &words[place..])
}
