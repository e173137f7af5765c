ghost use Rattle.std.specs.Prelude.{◌≡◌, ◌++◌, ◌∷◌, ◌+◌, ◌-◌, ◌*◌, ◌<◌, ◌≤◌, ◌+ℤ◌, ℕ, [], List, All, take, unsigned_abs, suc, pos, length, slice_index_or, IfOk, OnOk};
ghost use Rattle.definitions.specs.Words.{IsWord, IsLetter, words_of, shorter};
ghost use Rattle.scaled_tensor.specs.Tensors.{place};
ghost use Rattle.functionals.specs.Functionals.{term, behind, each_with, with_term, gathered, collected};
ghost use Rattle.definitions.specs.Signature.{limit};
ghost use Rattle.definitions.specs.Shuffles.{shuffles};
ghost use Rattle.functionals.specs.Tables.{IsTableOf, IsAdded};

use crate::term::WordTerm;
use crate::value::sum_with;
use std::alloc::Global;
use words::{Memory, Shape, Word};

/// Adds a term at the end, where the number isn't 0.
fn push_term(list: &mut Vec<WordTerm>, word: Word, coefficient: i128) -> Result<(), Memory>
    ensures { OnOk result (list.new.items ≡ list.old.items ++ with_term word coefficient []) }
{
    if coefficient != 0 {
        list.push(WordTerm { word, coefficient })?;
    }
    Ok(())
}

/// The number that stands for a word.
fn number_at(shape: Shape, sums: &[i128], word: &[u32]) -> i128
    requires word { IsWord shape word.now }
    requires len { length sums.now ≡ shorter shape.width (suc shape.depth) }
    ensures { result ≡ slice_index_or sums.now (place shape word.now) (pos 0) }
{
    sums[shape.place_of(word) as usize]
}

/// Adds the words of k letters with their numbers, those that are 0 left out.
fn collect_level(
    alloc: Global,
    shape: Shape,
    sums: &[i128],
    k: u32,
    list: &mut Vec<WordTerm>,
) -> Result<(), Memory>
    requires k { k ≤ shape.depth }
    requires len { length sums.now ≡ shorter shape.width (suc shape.depth) }
    ensures { OnOk result ((terms : List WordTerm) → IsTableOf shape sums.now terms → list.new.items ≡ list.old.items ++ gathered (words_of shape.width k) terms) }
{
    for i in 0..shape.count(k) {
        let word = shape.word_at(alloc, k, i)?;
        let sum = number_at(shape, sums, word.list());
        push_term(list, word, sum)?;
    }
    Ok(())
}

/// The words with their numbers, those that are 0 left out.
pub(crate) fn collect(alloc: Global, shape: Shape, sums: &[i128]) -> Result<Vec<WordTerm>, Memory>
    requires { length sums.now ≡ shorter shape.width (suc shape.depth) }
    ensures { IfOk result (λ list. (terms : List WordTerm) → IsTableOf shape sums.now terms → list.items ≡ collected shape terms) }
{
    let mut list = Vec::new(alloc);
    for k in 0..shape.depth() + 1 {
        collect_level(alloc, shape, sums, k, &mut list)?;
    }
    Ok(list)
}
