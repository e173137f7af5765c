//! Names of rows.

ghost use Rattle.std.specs.Prelude.{◌≡◌, ◌==◌, ◌||◌, IsTrue, IfOk, string_bytes};
ghost use Rattle.std.specs.List.{list_all};
ghost use Rattle.spellings.specs.Names.{is_alphabetic, starts_alphabetic, is_name};
ghost use Rattle.spellings.specs.Numbers.{is_digit};

use std::alloc::{AllocError, Global};

// The most bytes that a name has.
const MOST_BYTES: usize = 32;

// Whether there is a byte, and the first is a letter.
fn starts_alphabetic(word: &[u8]) -> bool
    ensures { result ≡ starts_alphabetic word.now }
{
    match word {
        [first, ..] => first.is_ascii_alphabetic(),
        [] => false,
    }
}

// Whether the byte may stand in a name.
fn is_name_byte(byte: u8) -> bool
    ensures { result ≡ (is_alphabetic byte || is_digit byte || byte == 95) }
{
    byte.is_ascii_alphanumeric() || byte == b'_'
}

// Whether each byte may stand in a name.
fn has_name_bytes_alone(word: &[u8]) -> bool
    ensures { result ≡ list_all (λ c. is_alphabetic c || is_digit c || c == 95) word.now }
{
    word.iter().all(|byte| is_name_byte(*byte))
}

/// Whether the word is a name: 1 to 32 bytes out of `a` to `z`, `A` to `Z`, `0` to `9` and `_`, the
/// first a letter.
pub fn is_name(word: &[u8]) -> bool
    ensures { result ≡ is_name word.now }
{
    starts_alphabetic(word) && word.len() <= MOST_BYTES && has_name_bytes_alone(word)
}

/// A name as text.
#[tactic(auto, using(crate::proofs::NameText::name_is_text))]
pub fn name_text(alloc: Global, word: &[u8]) -> Result<String, AllocError>
    requires { IsTrue (is_name word.now) }
    ensures { IfOk result (λ s. string_bytes s ≡ word.now) }
{
    // A name is ASCII, so nothing is lost.
    String::from_utf8_lossy(alloc, word)
}
