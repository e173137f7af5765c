ghost use Rattle.std.specs.Prelude.{◌≡◌, ◌+◌, ◌≤◌, ◌++◌, ◌∷◌, [], length, map, IfOk, OnOk};
ghost use Rattle.definitions.specs.Shuffles.{shuffles as shuffles_of};

use std::alloc::Global;
use words::{Memory, Word};

/// The letter, and then these letters.
fn behind(alloc: Global, letter: u32, letters: &[u32]) -> Result<Word, Memory>
    ensures { IfOk result (λ w. w ≡ letter ∷ letters.now) }
{
    let mut word = Vec::with_capacity(alloc, letters.len() + 1)?;
    word.push(letter)?;
    word.extend_from_slice(letters)?;
    Ok(Word::of(word))
}

/// Adds these words, each behind the letter.
fn push_behind(
    alloc: Global,
    list: &mut Vec<Word>,
    letter: u32,
    words: &[Word],
) -> Result<(), Memory>
    ensures { OnOk result (list.new.items ≡ list.old.items ++ map (λ w. letter ∷ w) words.now) }
{
    for word in words {
        list.push(behind(alloc, letter, word.list())?)?;
    }
    Ok(())
}

/// The word alone.
fn only(alloc: Global, word: &[u32]) -> Result<Vec<Word>, Memory>
    ensures { IfOk result (λ ws. ws.items ≡ word.now ∷ []) }
{
    let mut list = Vec::new(alloc);
    list.push(Word::of(Vec::from_slice(alloc, word)?))?;
    Ok(list)
}

/// The shuffles of two words of at most eight letters together: all ways to merge them that keep the order of the letters of each,
/// those first that begin with the first letter of `u`. A word that comes about in several ways is there as often.
/// (Reutenauer, Free Lie Algebras, section 1.4.)
pub fn shuffles(alloc: Global, u: &[u32], v: &[u32]) -> Result<Vec<Word>, Memory>
    requires { length u.now + length v.now ≤ 8 }
    ensures { IfOk result (λ ws. ws.items ≡ shuffles_of u.now v.now) }
{
    let Some((a, rest_of_u)) = u.split_first() else {
        return only(alloc, v);
    };
    let Some((b, rest_of_v)) = v.split_first() else {
        return only(alloc, u);
    };
    let mut list = Vec::new(alloc);
    push_behind(alloc, &mut list, *a, &shuffles(alloc, rest_of_u, v)?)?;
    push_behind(alloc, &mut list, *b, &shuffles(alloc, u, rest_of_v)?)?;
    Ok(list)
}
