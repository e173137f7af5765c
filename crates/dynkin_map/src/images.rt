//! The images of words as rows, each from that of the word without its first letter.
ghost use Rattle.std.specs.Prelude.{◌≡◌, ◌≤◌, ◌<◌, ◌+◌, ◌^◌, ◌++◌, ◌∷◌, [], List, ℕ, suc, pos, map, flat_map, All, length, EachIndex, IfOk, OnOk, slice_index_or, unsigned_abs};
ghost use Rattle.definitions.specs.Words.{IsShape, IsLetter, words_of, shorter};
ghost use Rattle.definitions.specs.Signature.{limit};
ghost use Rattle.definitions.specs.Hall.{InHall, hall_list};
ghost use Rattle.lie_bracket.specs.Brackets.{coefficient, bracket};
ghost use Rattle.lie_bracket.specs.Entries.{sizes};
ghost use Rattle.dynkin_map.specs.Coordinates.{image};
ghost use Rattle.definitions.specs.AllWords.{words_below};
ghost use Rattle.dynkin_map.specs.Table.{row_of, growth_of};

use crate::rows::Rows;
use lie_bracket::{BracketTable, LieElement, Term, add_scaled};
use std::alloc::Global;
use words::Memory;

/// The image of a letter and k letters more, in place of zeros, from that of the k letters.
fn write_image(sum: &mut [i128], table: &BracketTable, k: u32, a: u32, row: &[Term])
    requires shape { IsShape table.now }
    requires letter { IsLetter table.now.width a }
    requires len { length sum.old ≡ length (hall_list table.now.width table.now.depth) }
    requires zeros { EachIndex sum.old (λ h. slice_index_or sum.old h (pos 0) ≡ pos 0) }
    requires members { All (λ t. InHall (hall_list table.now.width table.now.depth) t.number) row.now }
    requires sizes { sizes row.now ≤ 2 ^ 50 }
    ensures value { (word : List ℕ) → All (IsLetter table.now.width) word → length word ≡ k → row.now ≡ row_of table.now word → EachIndex sum.new (λ h. slice_index_or sum.new h (pos 0) ≡ coefficient (suc h) (image (bracket table.now.depth (hall_list table.now.width table.now.depth)) (a ∷ word))) }
    ensures range { EachIndex sum.new (λ h. unsigned_abs (slice_index_or sum.new h (pos 0)) ≤ limit) }
{
    if k == 0 {
        add_scaled(
            sum,
            1,
            &[Term {
                factor: 1,
                number: a,
            }],
        );
    } else {
        table.add_brackets(sum, a, row);
    }
}

/// The image of a letter and k letters more as an element.
fn image_with(
    alloc: Global,
    members: u32,
    table: &BracketTable,
    k: u32,
    a: u32,
    row: &[Term],
) -> Result<LieElement, Memory>
    requires shape { IsShape table.now }
    requires letter { IsLetter table.now.width a }
    requires len { members ≡ length (hall_list table.now.width table.now.depth) }
    requires few { members ≤ 1024 }
    requires members { All (λ t. InHall (hall_list table.now.width table.now.depth) t.number) row.now }
    requires sizes { sizes row.now ≤ 2 ^ 50 }
    ensures { IfOk result (λ z. (word : List ℕ) → All (IsLetter table.now.width) word → length word ≡ k → row.now ≡ row_of table.now word → z ≡ row_of table.now (a ∷ word)) }
{
    let mut sum = vec![in alloc; 0i128; members as usize]?;
    write_image(&mut sum, table, k, a, row);
    LieElement::from_sums(alloc, &sum)
}

/// Appends the images of a letter and k letters more, from those of the k letters, which stand from a place on.
fn push_images(
    rows: &mut Rows,
    alloc: Global,
    members: u32,
    table: &BracketTable,
    k: u32,
    a: u32,
    from: usize,
) -> Result<(), Memory>
    requires shape { IsShape table.now }
    requires letter { IsLetter table.now.width a }
    requires len { members ≡ length (hall_list table.now.width table.now.depth) }
    requires few { members ≤ 1024 }
    requires depth { k < table.now.depth }
    requires small { 1 ≤ k → growth_of table.now k ≤ 2 ^ 40 }
    requires inside { from + table.now.width ^ k ≤ length rows.old }
    requires short { length rows.old ≤ 2000 }
    requires rows { (i : ℕ) → i < table.now.width ^ k → slice_index_or rows.old (from + i) [] ≡ row_of table.now (slice_index_or (words_of table.now.width k) i []) }
    ensures { OnOk result (rows.new ≡ rows.old ++ map (row_of table.now) (map (λ word. a ∷ word) (words_of table.now.width k))) }
{
    for i in 0..table.shape().count(k) as usize {
        let image = image_with(alloc, members, table, k, a, rows.row(from + i))?;
        rows.push(image.terms())?;
    }
    Ok(())
}

/// Appends the images of the words of k letters and one more to those of all words of k letters at most.
fn push_level(
    rows: &mut Rows,
    alloc: Global,
    members: u32,
    table: &BracketTable,
    k: u32,
) -> Result<(), Memory>
    requires shape { IsShape table.now }
    requires len { members ≡ length (hall_list table.now.width table.now.depth) }
    requires few { members ≤ 1024 }
    requires depth { k < table.now.depth }
    requires small { 1 ≤ k → growth_of table.now k ≤ 2 ^ 40 }
    requires rows { rows.old ≡ map (row_of table.now) (words_below table.now.width (suc k)) }
    ensures { OnOk result (rows.new ≡ map (row_of table.now) (words_below table.now.width (suc (suc k)))) }
{
    let shape = table.shape();
    let from = shape.before(k) as usize;
    for before in 0..shape.width() {
        push_images(rows, alloc, members, table, k, before + 1, from)?;
    }
    Ok(())
}

/// The images of all words.
pub(crate) fn images_of(alloc: Global, members: u32, table: &BracketTable) -> Result<Rows, Memory>
    requires shape { IsShape table.now }
    requires len { members ≡ length (hall_list table.now.width table.now.depth) }
    requires few { members ≤ 1024 }
    requires small { (k : ℕ) → 1 ≤ k → k ≤ table.now.depth → growth_of table.now k ≤ 2 ^ 40 }
    ensures { IfOk result (λ rows. rows ≡ map (row_of table.now) (words_below table.now.width (suc table.now.depth))) }
{
    let mut rows = Rows::new(alloc);
    rows.push(&[])?;
    for k in 0..table.shape().depth() {
        push_level(&mut rows, alloc, members, table, k)?;
    }
    Ok(rows)
}
