//! The lines of a text of bytes, and the words of a line.

ghost use Rattle.std.specs.Prelude.{◌≡◌, ◌-◌, ◌<◌, ◌≤◌, ◌==◌, ◌∷◌, [], List, length, map, take, drop, not, IfOk, IfSome, MatchOption};
ghost use Rattle.std.specs.List.{prefix_len, after_first};
ghost use Rattle.spellings.specs.Lines.{lines_of, without_return, is_blank, words_in, after_blanks, is_content};

use crate::cut::cut_at;
use std::alloc::{AllocError, Global};

// The line without one carriage return at its end.
fn without_return(line: &[u8]) -> &[u8]
    ensures { result.now ≡ without_return line.now }
{
    match line {
        [front @ .., last] => { if *last == b'\r' { front } else { line } }
        [] => line,
    }
}

/// Where the line that begins at a place ends, and where what follows it begins: the end of the text,
/// or directly after the line feed. A line ends at a line feed or at the end of the text, and neither
/// the line feed nor one carriage return at the line's end is a part of it. `None` exactly where the
/// place is the end of the text: a line feed at the end begins no further line. The place is 0, or
/// such a second place.
pub fn line_at(bytes: &[u8], from: usize) -> Option<(usize, usize)>
    requires { from ≤ length bytes.now }
    ensures line { MatchOption result (from ≡ length bytes.now) (λ r. lines_of (drop from bytes.now) ≡ take (r.0 - from) (drop from bytes.now) ∷ lines_of (drop r.1 bytes.now)) }
    ensures after { IfSome result (λ r. drop r.1 bytes.now ≡ after_first (λ c. c == 10) (drop from bytes.now)) }
    ensures places { IfSome result (λ r. (from ≤ r.0) × (r.0 ≤ r.1) × (from < r.1) × (r.1 ≤ length bytes.now)) }
{
    let rest = &bytes[from..];
    if rest.is_empty() {
        return None;
    }
    match cut_at(rest, b'\n') {
        Some((line, after)) => {
            let end = from + without_return(line).len();
            Some((end, bytes.len() - after.len()))
        }
        None => Some((from + without_return(rest).len(), bytes.len())),
    }
}

// Whether the byte is a space or a tab.
fn is_blank(byte: u8) -> bool
    ensures { result ≡ is_blank byte }
{
    byte == b' ' || byte == b'\t'
}

// How many blank bytes stand at the front.
fn count_blanks(line: &[u8]) -> usize
    ensures value { result ≡ prefix_len is_blank line.now }
    ensures within { result ≤ length line.now }
{
    line.iter().take_while(|byte| is_blank(**byte)).count()
}

// How many bytes that are not blank stand at the front.
fn count_word(line: &[u8]) -> usize
    ensures value { result ≡ prefix_len (λ c. not (is_blank c)) line.now }
    ensures within { result ≤ length line.now }
{
    line.iter().take_while(|byte| !is_blank(**byte)).count()
}

// The line from its first byte on that is not blank.
fn after_blanks(line: &[u8]) -> &[u8]
    ensures { result.now ≡ after_blanks line.now }
{
    &line[count_blanks(line)..]
}

/// Whether the line is a content line: it is not empty and no comment. A line is empty where it has
/// no byte other than space and tab, and a comment where the first such byte is `#`.
pub fn is_content(line: &[u8]) -> bool
    ensures { result ≡ is_content line.now }
{
    match after_blanks(line) {
        [first, ..] => *first != b'#',
        [] => false,
    }
}

/// Where the next word from a place on begins, and where it ends. A word is a longest run of bytes
/// other than space and tab. `None` exactly where there is none. The place is 0, or the end of a word.
pub fn word_in(line: &[u8], from: usize) -> Option<(usize, usize)>
    requires { from ≤ length line.now }
    ensures word { MatchOption result (words_in (drop from line.now) ≡ []) (λ r. words_in (drop from line.now) ≡ take (r.1 - r.0) (drop r.0 line.now) ∷ words_in (drop r.1 line.now)) }
    ensures places { IfSome result (λ r. (from ≤ r.0) × (r.0 < r.1) × (r.1 ≤ length line.now)) }
{
    let rest = after_blanks(&line[from..]);
    if rest.is_empty() {
        return None;
    }
    let start = line.len() - rest.len();
    Some((start, start + count_word(rest)))
}

/// The words of the line: the longest runs of bytes other than space and tab.
pub fn words_in<'a>(alloc: Global, line: &'a [u8]) -> Result<Vec<&'a [u8]>, AllocError>
    ensures { IfOk result (λ v. map (λ w. w.now) v.items ≡ words_in line.now) }
{
    let mut words = Vec::new(alloc);
    let mut from = 0;
    while let Some((start, end)) = word_in(line, from) {
        words.push(&line[start..end])?;
        from = end;
    }
    Ok(words)
}
