//! The product of a tensor by the exponential of a straight step, in place.
ghost use Rattle.std.specs.Prelude.{◌≡◌, ◌+◌, ◌-◌, ◌*◌, ◌^◌, ◌<◌, ◌≤◌, ◌⊎◌, ◌+ℤ◌, ◌*ℤ◌, ℕ, ℤ, List, length, pos, slice_index_or, unsigned_abs, IsTrue};
ghost use Rattle.definitions.specs.Words.{IsWord, IsShape};
ghost use Rattle.definitions.specs.Moves.{greatest};
ghost use Rattle.definitions.specs.Signature.{limit};
ghost use Rattle.tensor_product.specs.Sigs.{IsBoundedBy};
ghost use Rattle.tensor_product.specs.Extension.{HasRoomWithin, prefixes_of, ExtendsAt, IsExtendedBy};

use scaled_tensor::{Arithmetic, Narrow, Tensor, Wide};
use words::binom;

pub(crate) fn product_of(a: i128, b: i128) -> i128
    requires { unsigned_abs (a *ℤ b) ≤ limit }
    ensures { result ≡ a *ℤ b }
{
    a * b
}

pub(crate) fn sum_of(a: i128, b: i128) -> i128
    requires { unsigned_abs (a +ℤ b) ≤ limit }
    ensures { result ≡ a +ℤ b }
{
    a + b
}

/// The partial sum for one letter more: the cuts so far go on along the entry of the letter, and
/// the cut after the letter is added.
fn next_sum<A: Arithmetic>(sum: i128, entry: i128, ways: u64, prefix: i128) -> i128
    requires sum { unsigned_abs sum ≤ A.most }
    requires entry { unsigned_abs entry ≤ A.most }
    requires ways { ways ≤ A.most }
    requires prefix { unsigned_abs prefix ≤ A.most }
    requires grown { unsigned_abs (sum *ℤ entry) ≤ A.most }
    requires added { unsigned_abs (pos ways *ℤ prefix) ≤ A.most }
    requires summed { unsigned_abs (sum *ℤ entry +ℤ pos ways *ℤ prefix) ≤ A.most }
    ensures { result ≡ sum *ℤ entry +ℤ pos ways *ℤ prefix }
{
    A::sum_of(
        A::product_of(sum, entry),
        A::product_of(ways as i128, prefix),
    )
}

/// Writes the sums of one letter more from one sum, side by side from a place on.
#[inline(always)]
fn write_run<A: Arithmetic>(
    sums: &mut [i128],
    at: usize,
    sum: i128,
    ways: u64,
    level: &[i128],
    x: &[i128],
    width: usize,
)
    requires width { width ≡ length x.now }
    requires within { at + length x.now ≤ length sums.old }
    requires level { at + length x.now ≤ length level.now }
    requires sum { unsigned_abs sum ≤ A.most }
    requires entries { (a : ℕ) → a < length x.now → unsigned_abs (slice_index_or x.now a (pos 0)) ≤ A.most }
    requires ways { ways ≤ A.most }
    requires prefixes { (a : ℕ) → a < length x.now → unsigned_abs (slice_index_or level.now (at + a) (pos 0)) ≤ A.most }
    requires grown { (a : ℕ) → a < length x.now → unsigned_abs (sum *ℤ slice_index_or x.now a (pos 0)) ≤ A.most }
    requires added { (a : ℕ) → a < length x.now → unsigned_abs (pos ways *ℤ slice_index_or level.now (at + a) (pos 0)) ≤ A.most }
    requires summed { (a : ℕ) → a < length x.now → unsigned_abs (sum *ℤ slice_index_or x.now a (pos 0) +ℤ pos ways *ℤ slice_index_or level.now (at + a) (pos 0)) ≤ A.most }
    ensures run { (a : ℕ) → a < length x.now → slice_index_or sums.new (at + a) (pos 0) ≡ sum *ℤ slice_index_or x.now a (pos 0) +ℤ pos ways *ℤ slice_index_or level.now (at + a) (pos 0) }
    ensures others { (i : ℕ) → (i < at) ⊎ (at + length x.now ≤ i) → slice_index_or sums.new i (pos 0) ≡ slice_index_or sums.old i (pos 0) }
{
    for a in 0..width {
        sums[at + a] = next_sum::<A>(sum, x[a], ways, level[at + a]);
    }
}

/// Writes the sums of one letter more over those that they are made of. The last ones are written
/// first, so that none is written over before it is read.
///
/// Where the number of letters is written as a number at the call, the inner loop has a constant length.
#[inline(always)]
fn grow_runs<A: Arithmetic>(
    sums: &mut [i128],
    count: usize,
    ways: u64,
    level: &[i128],
    x: &[i128],
    width: usize,
)
    requires width { width ≡ length x.now }
    requires some { 1 ≤ length x.now }
    requires level { length level.now ≡ count * length x.now }
    requires within { count * length x.now ≤ length sums.old }
    requires sums { (q : ℕ) → q < count → unsigned_abs (slice_index_or sums.old q (pos 0)) ≤ A.most }
    requires entries { (a : ℕ) → a < length x.now → unsigned_abs (slice_index_or x.now a (pos 0)) ≤ A.most }
    requires ways { ways ≤ A.most }
    requires prefixes { (q a : ℕ) → q < count → a < length x.now → unsigned_abs (slice_index_or level.now (q * length x.now + a) (pos 0)) ≤ A.most }
    requires grown { (q a : ℕ) → q < count → a < length x.now → unsigned_abs (slice_index_or sums.old q (pos 0) *ℤ slice_index_or x.now a (pos 0)) ≤ A.most }
    requires added { (q a : ℕ) → q < count → a < length x.now → unsigned_abs (pos ways *ℤ slice_index_or level.now (q * length x.now + a) (pos 0)) ≤ A.most }
    requires summed { (q a : ℕ) → q < count → a < length x.now → unsigned_abs (slice_index_or sums.old q (pos 0) *ℤ slice_index_or x.now a (pos 0) +ℤ pos ways *ℤ slice_index_or level.now (q * length x.now + a) (pos 0)) ≤ A.most }
    ensures { (q a : ℕ) → q < count → a < length x.now → slice_index_or sums.new (q * length x.now + a) (pos 0) ≡ slice_index_or sums.old q (pos 0) *ℤ slice_index_or x.now a (pos 0) +ℤ pos ways *ℤ slice_index_or level.now (q * length x.now + a) (pos 0) }
{
    let mut q = count;
    let mut at = level.len();
    while q > 0 {
        q -= 1;
        at -= x.len();
        let sum = sums[q];
        write_run::<A>(sums, at, sum, ways, level, x, width);
    }
}

/// Writes the sums of one letter more over those that they are made of. The usual numbers of letters
/// have loops of their own.
fn grow<A: Arithmetic>(sums: &mut [i128], count: usize, ways: u64, level: &[i128], x: &[i128])
    requires some { 1 ≤ length x.now }
    requires level { length level.now ≡ count * length x.now }
    requires within { count * length x.now ≤ length sums.old }
    requires sums { (q : ℕ) → q < count → unsigned_abs (slice_index_or sums.old q (pos 0)) ≤ A.most }
    requires entries { (a : ℕ) → a < length x.now → unsigned_abs (slice_index_or x.now a (pos 0)) ≤ A.most }
    requires ways { ways ≤ A.most }
    requires prefixes { (q a : ℕ) → q < count → a < length x.now → unsigned_abs (slice_index_or level.now (q * length x.now + a) (pos 0)) ≤ A.most }
    requires grown { (q a : ℕ) → q < count → a < length x.now → unsigned_abs (slice_index_or sums.old q (pos 0) *ℤ slice_index_or x.now a (pos 0)) ≤ A.most }
    requires added { (q a : ℕ) → q < count → a < length x.now → unsigned_abs (pos ways *ℤ slice_index_or level.now (q * length x.now + a) (pos 0)) ≤ A.most }
    requires summed { (q a : ℕ) → q < count → a < length x.now → unsigned_abs (slice_index_or sums.old q (pos 0) *ℤ slice_index_or x.now a (pos 0) +ℤ pos ways *ℤ slice_index_or level.now (q * length x.now + a) (pos 0)) ≤ A.most }
    ensures { (q a : ℕ) → q < count → a < length x.now → slice_index_or sums.new (q * length x.now + a) (pos 0) ≡ slice_index_or sums.old q (pos 0) *ℤ slice_index_or x.now a (pos 0) +ℤ pos ways *ℤ slice_index_or level.now (q * length x.now + a) (pos 0) }
{
    match x.len() {
        2 => grow_runs::<A>(sums, count, ways, level, x, 2),
        3 => grow_runs::<A>(sums, count, ways, level, x, 3),
        4 => grow_runs::<A>(sums, count, ways, level, x, 4),
        6 => grow_runs::<A>(sums, count, ways, level, x, 6),
        12 => grow_runs::<A>(sums, count, ways, level, x, 12),
        width => grow_runs::<A>(sums, count, ways, level, x, width),
    }
}

/// Writes the coefficients of the words of k letters. The partial sum of a prefix is formed once
/// for all words that begin with it, the prefixes of one length after another; for the last letter
/// it is added to the coefficients themselves.
fn extend_level<A: Arithmetic>(tensor: &mut Tensor, x: &[i128], k: u32, sums: &mut [i128])
    requires shape { IsShape tensor.old.extent }
    requires x { length x.now ≡ tensor.old.extent.width }
    requires entries { (a : ℕ) → a < length x.now → unsigned_abs (slice_index_or x.now a (pos 0)) ≤ A.most }
    requires some { 1 ≤ k }
    requires k { k ≤ tensor.old.extent.depth }
    requires first { 1 ≤ length sums.old }
    requires sums { tensor.old.extent.width ^ (k - 1) ≤ length sums.old }
    requires room { (word : List ℕ) → IsWord tensor.old.extent word → length word ≡ k → HasRoomWithin A.most (prefixes_of tensor.old word) x.now word }
    ensures { ExtendsAt (λ w. length w ≡ k) x.now tensor.old tensor.new }
{
    sums[0] = tensor.level(0)[0];
    let mut count = 1;
    for j in 0..k - 1 {
        let level = tensor.level(j + 1);
        grow::<A>(sums, count, binom(k, j + 1), level, x);
        count = level.len();
    }
    tensor.add_outer::<A>(k, k - 1, &sums[..count], x);
}

/// Writes all coefficients, those of the longest words first, so that each sum reads the old ones:
/// those of words of more than `narrow` letters in 128 bits, the others in 64.
fn extend_levels(tensor: &mut Tensor, x: &[i128], narrow: u32, sums: &mut [i128])
    requires shape { IsShape tensor.old.extent }
    requires x { length x.now ≡ tensor.old.extent.width }
    requires narrow { narrow ≤ tensor.old.extent.depth }
    requires entries { (a : ℕ) → a < length x.now → unsigned_abs (slice_index_or x.now a (pos 0)) ≤ limit }
    requires few { 0 < narrow → (a : ℕ) → a < length x.now → unsigned_abs (slice_index_or x.now a (pos 0)) ≤ 2 ^ 63 - 1 }
    requires first { 1 ≤ length sums.old }
    requires sums { tensor.old.extent.width ^ (tensor.old.extent.depth - 1) ≤ length sums.old }
    requires room { (word : List ℕ) → IsWord tensor.old.extent word → HasRoomWithin limit (prefixes_of tensor.old word) x.now word }
    requires short { (word : List ℕ) → IsWord tensor.old.extent word → length word ≤ narrow → HasRoomWithin (2 ^ 63 - 1) (prefixes_of tensor.old word) x.now word }
    ensures { IsExtendedBy x.now tensor.old tensor.new }
{
    let mut k = tensor.shape().depth();
    'wide: while k > narrow {
        extend_level::<Wide>(tensor, x, k, sums);
        k -= 1;
    }
    'short: while k > 0 {
        extend_level::<Narrow>(tensor, x, k, sums);
        k -= 1;
    }
}

/// Writes all coefficients, with scratch for the sums of the prefixes of one length: small where
/// they are few, since it is cleared each time.
fn extend_in_scratch(tensor: &mut Tensor, x: &[i128], narrow: u32)
    requires shape { IsShape tensor.old.extent }
    requires x { length x.now ≡ tensor.old.extent.width }
    requires narrow { narrow ≤ tensor.old.extent.depth }
    requires entries { (a : ℕ) → a < length x.now → unsigned_abs (slice_index_or x.now a (pos 0)) ≤ limit }
    requires few { 0 < narrow → (a : ℕ) → a < length x.now → unsigned_abs (slice_index_or x.now a (pos 0)) ≤ 2 ^ 63 - 1 }
    requires room { (word : List ℕ) → IsWord tensor.old.extent word → HasRoomWithin limit (prefixes_of tensor.old word) x.now word }
    requires short { (word : List ℕ) → IsWord tensor.old.extent word → length word ≤ narrow → HasRoomWithin (2 ^ 63 - 1) (prefixes_of tensor.old word) x.now word }
    ensures { IsExtendedBy x.now tensor.old tensor.new }
{
    if tensor.level(tensor.shape().depth() - 1).len() <= 32 {
        extend_levels(tensor, x, narrow, &mut [0i128; 32]);
    } else {
        extend_levels(tensor, x, narrow, &mut [0i128; 256]);
    }
}

/// Writes the numbers of a list in 128 bits.
fn widen(x: &[i64], wide: &mut [i128])
    requires { length wide.old ≡ length x.now }
    ensures { wide.new ≡ x.now }
{
    for a in 0..x.len() {
        wide[a] = x[a] as i128;
    }
}

/// The greatest number of letters, up to a depth, at which the power of a weight is below 2^63.
pub(crate) fn narrow_depth(weight: u128, depth: u32) -> u32
    ensures within { result ≤ depth }
    ensures fits { weight ^ result ≤ 2 ^ 63 - 1 }
{
    if weight > i64::MAX as u128 {
        return 0;
    }
    let weight = weight as u64;
    let mut power: u64 = 1;
    for k in 0..depth {
        power = power.saturating_mul(weight);
        if power > i64::MAX as u64 {
            return k;
        }
    }
    depth
}

/// Writes all coefficients of a tensor that is bounded by a weight, in 64 bits where these do. The
/// product by a step of weight 0 is the tensor itself.
pub(crate) fn extend_bounded(tensor: &mut Tensor, x: &[i64], weight: u128, bound: u128)
    requires shape { IsShape tensor.old.extent }
    requires x { length x.now ≡ tensor.old.extent.width }
    requires weight { weight ≡ greatest x.now }
    requires bounded { IsBoundedBy tensor.old bound }
    requires fits { (bound + greatest x.now) ^ tensor.old.extent.depth ≤ limit }
    requires sum { bound + weight ≤ limit }
    ensures { IsExtendedBy x.now tensor.old tensor.new }
{
    if weight == 0 {
        return;
    }
    let mut wide = [0i128; 12];
    let entries = &mut wide[..x.len()];
    widen(x, entries);
    let narrow = narrow_depth(bound + weight, tensor.shape().depth());
    extend_in_scratch(tensor, entries, narrow);
}
