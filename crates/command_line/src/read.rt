//! Words, read from left to right.
ghost use Rattle.std.specs.Prelude.{◌≡◌, map, IfOk, string_bytes};
ghost use Rattle.command_line.specs.Settings.{settings_in};
ghost use Rattle.command_line.specs.Wishes.{IsInRange, asks_product, wish_in, wish_of};

use crate::gathered::Gathered;
use crate::setting::split_setting;
use crate::wish::Wish;
use std::alloc::Global;
use words::Memory;

// Whether the words are the one word `--cbh`.
fn asks_product(words: &[String]) -> bool
    ensures { result ≡ asks_product (map string_bytes words.now) }
{
    match words {
        [word] => word.as_str() == "--cbh",
        _ => false,
    }
}

// What the options in the words wish.
fn read_settings(alloc: Global, words: &[String]) -> Result<Wish, Memory>
    ensures wish { IfOk result (λ wish. wish ≡ wish_in (settings_in (map string_bytes words.now))) }
    ensures range { IfOk result IsInRange }
{
    let mut gathered = Gathered::nothing();
    let mut rest = words;
    while let [word, after @ ..] = rest {
        let Some((setting, after)) = split_setting(alloc, word, after)? else {
            return Ok(Wish::Refused);
        };
        let Some(more) = gathered.with(setting) else {
            return Ok(Wish::Refused);
        };
        gathered = more;
        rest = after;
    }
    Ok(gathered.wish())
}

/// What the words of a command line wish, the program's name left out.
///
/// The word `--cbh` alone wishes the product of exponentials. The options are `--order`, `--cache`,
/// `--gen` and `--json`, each at most once and in any order. All but `--json` have a value: what follows
/// the `=` directly after the name, or the whole next word.
///
/// | Option | Value | Wish |
/// |---|---|---|
/// | `--order` | `none`, or numbers from 1 to 16 with commas between | one thread that takes the steps in this order of sessions; `none` is the empty order |
/// | `--cache` | a number from 1 to 16384 | the capacity of the cache, 4096 without it |
/// | `--json` | | the form is JSON, and text without it |
/// | `--gen` | a number from 1 to 10000 | the generated script of so many commands |
///
/// A number has one to five decimal digits. The words are refused exactly where they aren't the one word
/// `--cbh`, and a word is no part of an option, an option stands twice, a value is missing or not as the
/// table says, or `--gen` stands beside `--order` or `--json`.
///
/// # Errors
///
/// Want of memory.
pub fn read_words(alloc: Global, words: &[String]) -> Result<Wish, Memory>
    ensures wish { IfOk result (λ wish. wish ≡ wish_of (map string_bytes words.now)) }
    ensures range { IfOk result IsInRange }
{
    if asks_product(words) {
        return Ok(Wish::Cbh);
    }
    read_settings(alloc, words)
}
