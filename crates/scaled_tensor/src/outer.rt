//! Writes to runs of numbers: zeros, and outer products that are added.
ghost use Rattle.std.specs.Prelude.{◌≡◌, ◌+◌, ◌*◌, ◌<◌, ◌≤◌, ◌⊎◌, ◌+ℤ◌, ◌*ℤ◌, ℕ, All, length, pos, slice_index_or, unsigned_abs};
ghost use Rattle.definitions.specs.Signature.{limit};

use crate::arithmetic::Arithmetic;

/// Adds a multiple of a list of this width to the numbers from a place on.
#[inline(always)]
fn add_run<A: Arithmetic>(out: &mut [i128], from: usize, factor: i128, right: &[i128], width: usize)
    requires width { width ≡ length right.now }
    requires within { from + length right.now ≤ length out.old }
    requires factor { unsigned_abs factor ≤ A.most }
    requires right { (r : ℕ) → r < length right.now → unsigned_abs (slice_index_or right.now r (pos 0)) ≤ A.most }
    requires out { (r : ℕ) → r < length right.now → unsigned_abs (slice_index_or out.old (from + r) (pos 0)) ≤ A.most }
    requires multiplied { (r : ℕ) → r < length right.now → unsigned_abs (factor *ℤ slice_index_or right.now r (pos 0)) ≤ A.most }
    requires added { (r : ℕ) → r < length right.now → unsigned_abs (slice_index_or out.old (from + r) (pos 0) +ℤ factor *ℤ slice_index_or right.now r (pos 0)) ≤ A.most }
    ensures run { (r : ℕ) → r < length right.now → slice_index_or out.new (from + r) (pos 0) ≡ slice_index_or out.old (from + r) (pos 0) +ℤ factor *ℤ slice_index_or right.now r (pos 0) }
    ensures others { (i : ℕ) → (i < from) ⊎ (from + length right.now ≤ i) → slice_index_or out.new i (pos 0) ≡ slice_index_or out.old i (pos 0) }
    ensures range { All (λ z. unsigned_abs z ≤ limit) out.old → All (λ z. unsigned_abs z ≤ limit) out.new }
{
    for r in 0..width {
        let product = A::product_of(factor, right[r]);
        out[from + r] = A::sum_of(out[from + r], product);
    }
}

/// Adds the outer product of two lists, of which the second has this width. Where the width is
/// written as a number at the call, the inner loop has a constant length.
#[inline(always)]
fn add_runs<A: Arithmetic>(
    out: &mut [i128],
    from: usize,
    left: &[i128],
    right: &[i128],
    width: usize,
)
    requires width { width ≡ length right.now }
    requires within { from + length left.now * length right.now ≤ length out.old }
    requires left { (q : ℕ) → q < length left.now → unsigned_abs (slice_index_or left.now q (pos 0)) ≤ A.most }
    requires right { (r : ℕ) → r < length right.now → unsigned_abs (slice_index_or right.now r (pos 0)) ≤ A.most }
    requires out { (q r : ℕ) → q < length left.now → r < length right.now → unsigned_abs (slice_index_or out.old (from + (q * length right.now + r)) (pos 0)) ≤ A.most }
    requires multiplied { (q r : ℕ) → q < length left.now → r < length right.now → unsigned_abs (slice_index_or left.now q (pos 0) *ℤ slice_index_or right.now r (pos 0)) ≤ A.most }
    requires added { (q r : ℕ) → q < length left.now → r < length right.now → unsigned_abs (slice_index_or out.old (from + (q * length right.now + r)) (pos 0) +ℤ slice_index_or left.now q (pos 0) *ℤ slice_index_or right.now r (pos 0)) ≤ A.most }
    ensures run { (q r : ℕ) → q < length left.now → r < length right.now → slice_index_or out.new (from + (q * length right.now + r)) (pos 0) ≡ slice_index_or out.old (from + (q * length right.now + r)) (pos 0) +ℤ slice_index_or left.now q (pos 0) *ℤ slice_index_or right.now r (pos 0) }
    ensures others { (i : ℕ) → (i < from) ⊎ (from + length left.now * length right.now ≤ i) → slice_index_or out.new i (pos 0) ≡ slice_index_or out.old i (pos 0) }
    ensures range { All (λ z. unsigned_abs z ≤ limit) out.old → All (λ z. unsigned_abs z ≤ limit) out.new }
{
    let mut at = from;
    for q in 0..left.len() {
        add_run::<A>(out, at, left[q], right, width);
        at += width;
    }
}

/// Adds the outer product of two lists to the numbers from a place on, those of the second list
/// side by side. Short lists of the usual widths have loops of their own.
pub(crate) fn add_outer<A: Arithmetic>(out: &mut [i128], from: usize, left: &[i128], right: &[i128])
    requires within { from + length left.now * length right.now ≤ length out.old }
    requires left { (q : ℕ) → q < length left.now → unsigned_abs (slice_index_or left.now q (pos 0)) ≤ A.most }
    requires right { (r : ℕ) → r < length right.now → unsigned_abs (slice_index_or right.now r (pos 0)) ≤ A.most }
    requires out { (q r : ℕ) → q < length left.now → r < length right.now → unsigned_abs (slice_index_or out.old (from + (q * length right.now + r)) (pos 0)) ≤ A.most }
    requires multiplied { (q r : ℕ) → q < length left.now → r < length right.now → unsigned_abs (slice_index_or left.now q (pos 0) *ℤ slice_index_or right.now r (pos 0)) ≤ A.most }
    requires added { (q r : ℕ) → q < length left.now → r < length right.now → unsigned_abs (slice_index_or out.old (from + (q * length right.now + r)) (pos 0) +ℤ slice_index_or left.now q (pos 0) *ℤ slice_index_or right.now r (pos 0)) ≤ A.most }
    ensures run { (q r : ℕ) → q < length left.now → r < length right.now → slice_index_or out.new (from + (q * length right.now + r)) (pos 0) ≡ slice_index_or out.old (from + (q * length right.now + r)) (pos 0) +ℤ slice_index_or left.now q (pos 0) *ℤ slice_index_or right.now r (pos 0) }
    ensures others { (i : ℕ) → (i < from) ⊎ (from + length left.now * length right.now ≤ i) → slice_index_or out.new i (pos 0) ≡ slice_index_or out.old i (pos 0) }
    ensures range { All (λ z. unsigned_abs z ≤ limit) out.old → All (λ z. unsigned_abs z ≤ limit) out.new }
{
    match right.len() {
        2 => add_runs::<A>(out, from, left, right, 2),
        3 => add_runs::<A>(out, from, left, right, 3),
        4 => add_runs::<A>(out, from, left, right, 4),
        6 => add_runs::<A>(out, from, left, right, 6),
        8 => add_runs::<A>(out, from, left, right, 8),
        12 => add_runs::<A>(out, from, left, right, 12),
        width => add_runs::<A>(out, from, left, right, width),
    }
}

/// Writes 0 for the numbers from a place on and before another one.
pub(crate) fn clear(out: &mut [i128], from: usize, to: usize)
    requires { to ≤ length out.old }
    ensures cleared { (i : ℕ) → from ≤ i → i < to → slice_index_or out.new i (pos 0) ≡ pos 0 }
    ensures others { (i : ℕ) → (i < from) ⊎ (to ≤ i) → slice_index_or out.new i (pos 0) ≡ slice_index_or out.old i (pos 0) }
    ensures range { All (λ z. unsigned_abs z ≤ limit) out.old → All (λ z. unsigned_abs z ≤ limit) out.new }
{
    for at in from..to {
        out[at] = 0;
    }
}
