//! Numbers and times, as they are spelled.

ghost use Rattle.std.specs.Prelude.{◌≡◌, ◌<◌, ◌^◌, ◌*◌, ◌+◌, ◌==◌, ◌&&◌, nat_le, nat_lt, pos, neg_ℤ, length, IsTrue, MatchOption, Some, None, true, false, if◌then◌else◌};
ghost use Rattle.std.specs.List.{list_all, list_any, before_first, after_first};
ghost use Rattle.spellings.specs.Numbers.{is_digit, is_plain, value_of, is_denominator, fraction_up_to, plain_up_to, whole_of, tick_up_to};

use crate::cut::cut_at;

// The most digits that a plain number has.
const MOST_DIGITS: usize = 20;

// The ticks of a unit of time.
const TICKS: u128 = 65536;

// Whether each byte is a digit.
fn has_digits_alone(word: &[u8]) -> bool
    ensures { result ≡ list_all is_digit word.now }
{
    word.iter().all(|byte| byte.is_ascii_digit())
}

// Whether the word is 1 to 20 digits.
fn is_plain(word: &[u8]) -> bool
    ensures { result ≡ is_plain word.now }
{
    1 <= word.len() && word.len() <= MOST_DIGITS && has_digits_alone(word)
}

// The number that the digits of a plain number spell.
fn value_of(word: &[u8]) -> u128
    requires { IsTrue (is_plain word.now) }
    ensures value { result ≡ value_of word.now }
    ensures bound { result < 10 ^ 20 }
{
    let mut value = 0;
    for byte in word {
        value = 10 * value + (*byte - b'0') as u128;
    }
    value
}

/// The value of a plain number: 1 to 20 decimal digits, leading zeros accepted. `None` exactly where
/// the word is none.
pub fn plain(word: &[u8]) -> Option<u128>
    ensures { MatchOption result (is_plain word.now ≡ false) (λ n. (is_plain word.now ≡ true) × (n ≡ value_of word.now) × (n < 10 ^ 20)) }
{
    if is_plain(word) {
        Some(value_of(word))
    } else {
        None
    }
}

/// The value of a plain number: 1 to 20 decimal digits, leading zeros accepted. `None` where the
/// word is none, or its value exceeds `most`.
pub fn plain_number(word: &[u8], most: u64) -> Option<u64>
    ensures { result ≡ plain_up_to most word.now }
{
    at_most(plain(word)?, most)
}

/// The whole number that the word spells: a plain number with at most one `-` before it, so `-0` is
/// 0. `None` where the word is none, or its value is outside of the range of an `i64`.
pub fn whole_number(word: &[u8]) -> Option<i64>
    ensures { result ≡ whole_of word.now }
{
    match word {
        [b'-', digits @ ..] => below_zero(digits),
        _ => from_zero(word),
    }
}

// The value of a plain number, where it is below 2^63.
fn from_zero(word: &[u8]) -> Option<i64>
    ensures { result ≡ (if is_plain word.now && nat_lt (value_of word.now) (2 ^ 63) then Some (pos (value_of word.now)) else None) }
{
    match plain(word) {
        Some(value) if value < 1 << 63 => Some(value as i64),
        _ => None,
    }
}

// The value of a plain number with a minus sign before it, where it is at least -2^63.
fn below_zero(digits: &[u8]) -> Option<i64>
    ensures { result ≡ (if is_plain digits.now && nat_le (value_of digits.now) (2 ^ 63) then Some (neg_ℤ (pos (value_of digits.now))) else None) }
{
    match plain(digits) {
        Some(value) if value <= 1 << 63 => Some((-(value as i128)) as i64),
        _ => None,
    }
}

// Whether the value is one of 1, 2, 4, .., 65536.
fn is_denominator(value: u128) -> bool
    ensures { result ≡ is_denominator value }
{
    value.is_power_of_two() && value <= TICKS
}

// The tick of a time without a fraction, where it is at most the given one.
fn whole_time(word: &[u8], most: u64) -> Option<u64>
    ensures { result ≡ (if is_plain word.now && nat_le (value_of word.now * 65536) most then Some (value_of word.now * 65536) else None) }
{
    at_most(plain(word)? * TICKS, most)
}

// The tick of a time `a/b`, where it is at most the given one.
fn fraction(a: &[u8], b: &[u8], most: u64) -> Option<u64>
    ensures { result ≡ fraction_up_to most a.now b.now }
{
    let a = plain(a)?;
    let b = plain(b)?;
    if is_denominator(b) {
        at_most(a * TICKS / b, most)
    } else {
        None
    }
}

// The tick, where it is at most the given one.
fn at_most(value: u128, most: u64) -> Option<u64>
    ensures { result ≡ (if nat_le value most then Some value else None) }
{
    if value <= most as u128 {
        Some(value as u64)
    } else {
        None
    }
}

/// The tick of a time, 65536 ticks to the unit: a plain number a, or `a/b` where b is a plain number
/// whose value is one of 1, 2, 4, .., 65536. `None` where the word is no time, or its tick exceeds
/// `most`.
pub fn tick(word: &[u8], most: u64) -> Option<u64>
    ensures { result ≡ tick_up_to most word.now }
{
    match cut_at(word, b'/') {
        Some((a, b)) => fraction(a, b, most),
        None => whole_time(word, most),
    }
}
