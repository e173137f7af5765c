//! The growths of the degrees, by sums over all words of one length.
ghost use Rattle.std.specs.Prelude.{◌≡◌, ◌≤◌, ◌+◌, ◌*◌, ◌^◌, ℕ, suc, pos, ◌+ℤ◌, length, EachIndex, IfOk, IfErr, slice_index_or, unsigned_abs};
ghost use Rattle.definitions.specs.Words.{IsShape, IsLetter};
ghost use Rattle.definitions.specs.Signature.{limit};
ghost use Rattle.definitions.specs.Hall.{hall_list};
ghost use Rattle.lie_bracket.specs.Entries.{sizes};
ghost use Rattle.lie_bracket.specs.Tables.{nonzero};
ghost use Rattle.dynkin_map.specs.Table.{majorant_sum, majorant_sum_with, AreGrowths};
ghost use Rattle.dynkin_map.specs.Faults.{IsTableFault};

use lie_bracket::{BracketTable, LieElement, TableFault, Term, add_scaled};
use std::alloc::Global;
use words::Memory;

/// Adds the sum over the words of a and k letters more, from that over the words of k letters.
fn add_words_with(sum: &mut [i128], table: &BracketTable, k: u32, a: u32, words: &[Term])
    requires shape { IsShape table.now }
    requires letter { IsLetter table.now.width a }
    requires len { length sum.old ≡ length (hall_list table.now.width table.now.depth) }
    requires words { 1 ≤ k → words.now ≡ nonzero (length (hall_list table.now.width table.now.depth)) (majorant_sum table.now k) }
    requires sizes { sizes words.now ≤ 2 ^ 50 }
    requires room { EachIndex sum.old (λ h. unsigned_abs (slice_index_or sum.old h (pos 0)) ≤ 2 ^ 100) }
    ensures value { EachIndex sum.new (λ h. slice_index_or sum.new h (pos 0) ≡ slice_index_or sum.old h (pos 0) +ℤ majorant_sum_with table.now k a (suc h)) }
    ensures bound { EachIndex sum.new (λ h. unsigned_abs (slice_index_or sum.new h (pos 0)) ≤ unsigned_abs (slice_index_or sum.old h (pos 0)) + 2 ^ 90) }
{
    if k == 0 {
        add_scaled(
            sum,
            1,
            &[Term {
                factor: 1,
                number: a,
            }],
        );
    } else {
        table.add_majorants(sum, a, words);
    }
}

/// The sum over the words of one letter more than k, in place of zeros.
fn write_words(sum: &mut [i128], table: &BracketTable, k: u32, words: &[Term])
    requires shape { IsShape table.now }
    requires len { length sum.old ≡ length (hall_list table.now.width table.now.depth) }
    requires zeros { EachIndex sum.old (λ h. slice_index_or sum.old h (pos 0) ≡ pos 0) }
    requires words { 1 ≤ k → words.now ≡ nonzero (length (hall_list table.now.width table.now.depth)) (majorant_sum table.now k) }
    requires sizes { sizes words.now ≤ 2 ^ 50 }
    ensures value { EachIndex sum.new (λ h. slice_index_or sum.new h (pos 0) ≡ majorant_sum table.now (suc k) (suc h)) }
    ensures range { EachIndex sum.new (λ h. unsigned_abs (slice_index_or sum.new h (pos 0)) ≤ limit) }
{
    for before in 0..table.shape().width() {
        add_words_with(sum, table, k, before + 1, words);
    }
}

/// The sum over the words of one letter more than k, as an element.
fn next_words(
    alloc: Global,
    members: u32,
    table: &BracketTable,
    k: u32,
    words: &[Term],
) -> Result<LieElement, Memory>
    requires shape { IsShape table.now }
    requires members { members ≡ length (hall_list table.now.width table.now.depth) }
    requires few { members ≤ 1024 }
    requires words { 1 ≤ k → words.now ≡ nonzero (length (hall_list table.now.width table.now.depth)) (majorant_sum table.now k) }
    requires sizes { sizes words.now ≤ 2 ^ 50 }
    ensures { IfOk result (λ z. z ≡ nonzero (length (hall_list table.now.width table.now.depth)) (majorant_sum table.now (suc k))) }
{
    let mut sum = vec![in alloc; 0i128; members as usize]?;
    write_words(&mut sum, table, k, words);
    LieElement::from_sums(alloc, &sum)
}

/// The growths by degree from 1, refused at the first above 2^40.
pub(crate) fn growths_of(
    alloc: Global,
    members: u32,
    table: &BracketTable,
) -> Result<[u64; 8], TableFault>
    requires shape { IsShape table.now }
    requires members { members ≡ length (hall_list table.now.width table.now.depth) }
    requires few { members ≤ 1024 }
    ensures ok { IfOk result (AreGrowths table.now) }
    ensures fault { IfErr result (IsTableFault table.now) }
{
    let mut growths = [0u64; 8];
    let mut words = LieElement::from_sums(alloc, &[])?;
    for k in 0..table.shape().depth() {
        words = next_words(alloc, members, table, k, words.terms())?;
        let growth = words.top();
        if growth > 1 << 40 {
            return Err(TableFault::Level(k + 1));
        }
        growths[k as usize] = growth as u64;
    }
    Ok(growths)
}
