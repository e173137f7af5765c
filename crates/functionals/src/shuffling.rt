ghost use Rattle.std.specs.Prelude.{◌≡◌, ◌++◌, ◌∷◌, ◌+◌, ◌-◌, ◌*◌, ◌<◌, ◌≤◌, ℕ, [], List, All, unsigned_abs, suc, pos, length, slice_index_or};
ghost use Rattle.definitions.specs.Words.{IsWord, IsLetter, shorter};
ghost use Rattle.definitions.specs.Signature.{limit};
ghost use Rattle.definitions.specs.Shuffles.{shuffles};
ghost use Rattle.scaled_tensor.specs.Tensors.{place};
ghost use Rattle.functionals.specs.Functionals.{term, behind, each_with, norm, reach, shuffled_pair, shuffled_by, shuffled};
ghost use Rattle.functionals.specs.Tables.{IsAdded, HasRoom, IsPrefix, IsTerm};

use crate::term::WordTerm;
use crate::value::{product_of, sum_with};
use words::Shape;

/// The number at a place.
fn number_of(sums: &[i128], at: usize) -> i128
    requires { at < length sums.now }
    ensures { result ≡ slice_index_or sums.now at (pos 0) }
{
    sums[at]
}

/// The place of the word that these letters end; the letters before them have this index, and the
/// words of as many letters start at this place.
fn place_behind(shape: Shape, start: u64, index: u64, rest: &[u32]) -> u64
    requires prefix { (p : List ℕ) × IsPrefix shape start index (length rest.now) p }
    requires letters { All (IsLetter shape.width) rest.now }
    ensures value { (p : List ℕ) → IsPrefix shape start index (length rest.now) p → result ≡ place shape (p ++ rest.now) }
    ensures bound { result < shorter shape.width (suc shape.depth) }
    ensures few { shorter shape.width (suc shape.depth) ≤ 2000 }
{
    let last = shape.index_of(rest);
    start + index * shape.count(rest.len() as u32) + last
}

/// Adds a number at the word that these letters end.
fn add_word(shape: Shape, sums: &mut [i128], start: u64, index: u64, rest: &[u32], c: i128)
    requires prefix { (p : List ℕ) × IsPrefix shape start index (length rest.now) p }
    requires letters { All (IsLetter shape.width) rest.now }
    requires len { length sums.old ≡ shorter shape.width (suc shape.depth) }
    requires room { HasRoom shape sums.old (unsigned_abs c) }
    ensures { (p : List ℕ) → IsPrefix shape start index (length rest.now) p → IsAdded shape sums.old sums.new (term (p ++ rest.now) c ∷ []) }
{
    let at = place_behind(shape, start, index, rest) as usize;
    let number = number_of(sums, at);
    sums[at] = sum_with(number, c);
}

/// The index of a word with one letter more.
fn longer_index(shape: Shape, index: u64, letter: u32) -> u64
    requires index { index ≤ 2000 }
    requires letter { IsLetter shape.width letter }
    ensures { result ≡ shape.width * index + (letter - 1) }
{
    shape.width() as u64 * index + (letter - 1) as u64
}

/// Adds a number at each shuffle of two words, behind the letters of this index.
fn add_shuffles(
    shape: Shape,
    sums: &mut [i128],
    start: u64,
    index: u64,
    u: &[u32],
    v: &[u32],
    c: i128,
)
    requires prefix { (p : List ℕ) × IsPrefix shape start index (length u.now + length v.now) p }
    requires u { All (IsLetter shape.width) u.now }
    requires v { All (IsLetter shape.width) v.now }
    requires len { length sums.old ≡ shorter shape.width (suc shape.depth) }
    requires room { HasRoom shape sums.old (length (shuffles u.now v.now) * unsigned_abs c) }
    ensures { (p : List ℕ) → IsPrefix shape start index (length u.now + length v.now) p → IsAdded shape sums.old sums.new (each_with c (behind p (shuffles u.now v.now))) }
{
    let Some((a, rest_of_u)) = u.split_first() else {
        add_word(shape, sums, start, index, v, c);
        return;
    };
    let Some((b, rest_of_v)) = v.split_first() else {
        add_word(shape, sums, start, index, u, c);
        return;
    };
    let behind_a = longer_index(shape, index, *a);
    add_shuffles(shape, sums, start, behind_a, rest_of_u, v, c);
    let behind_b = longer_index(shape, index, *b);
    add_shuffles(shape, sums, start, behind_b, u, rest_of_v, c);
}

/// Adds the shuffles of two terms.
fn add_pair(shape: Shape, sums: &mut [i128], t: &WordTerm, r: &WordTerm)
    requires first { IsTerm shape t.now }
    requires second { IsTerm shape r.now }
    requires short { length t.now.word + length r.now.word ≤ shape.depth }
    requires len { length sums.old ≡ shorter shape.width (suc shape.depth) }
    requires room { HasRoom shape sums.old (norm (shuffled_pair t.now r.now)) }
    ensures { IsAdded shape sums.old sums.new (shuffled_pair t.now r.now) }
{
    let u = t.word.list();
    let v = r.word.list();
    let c = product_of(t.coefficient, r.coefficient);
    let start = shape.before((u.len() + v.len()) as u32);
    add_shuffles(shape, sums, start, 0, u, v, c);
}

/// Adds the shuffles of a term and each of a list.
fn add_term(shape: Shape, sums: &mut [i128], t: &WordTerm, g: &[WordTerm])
    requires term { IsTerm shape t.now }
    requires terms { All (IsTerm shape) g.now }
    requires short { length t.now.word + reach g.now ≤ shape.depth }
    requires len { length sums.old ≡ shorter shape.width (suc shape.depth) }
    requires room { HasRoom shape sums.old (norm (shuffled_by t.now g.now)) }
    ensures { IsAdded shape sums.old sums.new (shuffled_by t.now g.now) }
{
    for r in g {
        add_pair(shape, sums, t, r);
    }
}

/// Adds the shuffles of each term of f and each of g.
pub(crate) fn add_terms(shape: Shape, sums: &mut [i128], f: &[WordTerm], g: &[WordTerm])
    requires first { All (IsTerm shape) f.now }
    requires second { All (IsTerm shape) g.now }
    requires short { reach f.now + reach g.now ≤ shape.depth }
    requires len { length sums.old ≡ shorter shape.width (suc shape.depth) }
    requires room { HasRoom shape sums.old (norm (shuffled f.now g.now)) }
    ensures { IsAdded shape sums.old sums.new (shuffled f.now g.now) }
{
    for t in f {
        add_term(shape, sums, t, g);
    }
}
