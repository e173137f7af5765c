//! Sums of rows.
ghost use Rattle.std.specs.Prelude.{[], ◌≡◌, ◌+◌, ◌*◌, ◌<◌, ◌≤◌, ℕ, suc, pos, ◌+ℤ◌, ◌*ℤ◌, length, EachIndex, slice_index_or, unsigned_abs};
ghost use Rattle.definitions.specs.Signature.{limit};
ghost use Rattle.definitions.specs.Sums.{sum_below, count_below};
ghost use Rattle.lie_bracket.specs.Brackets.{coefficient};
ghost use Rattle.lie_bracket.specs.Entries.{Numbers, size_at};

use crate::rows::Rows;
use lie_bracket::add_scaled;

/// Adds the rows from a place on, each so many times as the factor in line with it says.
pub(crate) fn add_rows(sum: &mut [i128], factors: &[i128], rows: &Rows, from: usize)
    requires inside { from + length factors.now ≤ length rows.now }
    requires few { length rows.now ≤ 2000 }
    requires numbers { (i : ℕ) → i < length factors.now → Numbers (length sum.old) (slice_index_or rows.now (from + i) []) }
    requires room { EachIndex sum.old (λ h. unsigned_abs (slice_index_or sum.old h (pos 0)) + count_below (length factors.now) (λ i. unsigned_abs (slice_index_or factors.now i (pos 0)) * size_at (suc h) (slice_index_or rows.now (from + i) [])) ≤ limit) }
    ensures value { EachIndex sum.new (λ h. slice_index_or sum.new h (pos 0) ≡ slice_index_or sum.old h (pos 0) +ℤ sum_below (length factors.now) (λ i. slice_index_or factors.now i (pos 0) *ℤ coefficient (suc h) (slice_index_or rows.now (from + i) []))) }
{
    for (i, factor) in factors.iter().enumerate() {
        add_scaled(sum, *factor, rows.row(from + i));
    }
}
