//! The product of two tensors, level by level in place.
ghost use Rattle.std.specs.Prelude.{◌≡◌, ◌≢◌, ◌+◌, ◌-◌, ◌^◌, ◌<◌, ◌≤◌, ◌+ℤ◌, ◌*ℤ◌, ℕ, suc, List, [], length, pos, slice_index_or, unsigned_abs};
ghost use Rattle.definitions.specs.Words.{IsWord, IsShape};
ghost use Rattle.definitions.specs.Signature.{limit};
ghost use Rattle.scaled_tensor.specs.Tensors.{coefficient};
ghost use Rattle.tensor_product.specs.Sigs.{IsBoundedBy};
ghost use Rattle.tensor_product.specs.Extension.{prefixes_of};
ghost use Rattle.tensor_product.specs.Multiplication.{IsProduct, HasJoinRoom, JoinsAt};

use crate::extend::narrow_depth;
use scaled_tensor::{Arithmetic, Narrow, Tensor, Wide};
use words::binom;

/// Writes a multiple of each number of a level.
fn scale<A: Arithmetic>(level: &[i128], ways: u64, scaled: &mut [i128])
    requires within { length level.now ≤ length scaled.old }
    requires ways { ways ≤ A.most }
    requires level { (i : ℕ) → i < length level.now → unsigned_abs (slice_index_or level.now i (pos 0)) ≤ A.most }
    requires room { (i : ℕ) → i < length level.now → unsigned_abs (pos ways *ℤ slice_index_or level.now i (pos 0)) ≤ A.most }
    ensures { (i : ℕ) → i < length level.now → slice_index_or scaled.new i (pos 0) ≡ pos ways *ℤ slice_index_or level.now i (pos 0) }
{
    for i in 0..level.len() {
        scaled[i] = A::product_of(ways as i128, level[i]);
    }
}

/// Writes the coefficients of the words of k letters of a product in place: for each cut the outer
/// product of the level of the prefixes, which are shorter and so as they were, and that of the
/// suffixes. The second factor is 1 at the empty word, so that the cut after all letters is there
/// from the start. The last parameter is scratch.
pub fn join_level<A: Arithmetic>(a: &mut Tensor, b: &Tensor, k: u32, scaled: &mut [i128])
    requires shape { IsShape a.old.extent }
    requires same { b.now.extent ≡ a.old.extent }
    requires some { 1 ≤ k }
    requires k { k ≤ a.old.extent.depth }
    requires starts { coefficient b.now [] ≡ pos 1 }
    requires scaled { a.old.extent.width ^ (k - 1) ≤ length scaled.old }
    requires room { (word : List ℕ) → IsWord a.old.extent word → length word ≡ k → HasJoinRoom A.most (prefixes_of a.old word) (coefficient b.now) word }
    ensures { JoinsAt (λ w. length w ≡ k) (coefficient b.now) a.old a.new }
{
    for cut in 0..k {
        let level = a.level(cut);
        let count = level.len();
        let other = b.level(k - cut);
        scale::<A>(level, binom(k, cut), scaled);
        a.add_outer::<A>(k, cut, &scaled[..count], other);
    }
}

/// Writes all coefficients in place, those of the longest words first: those of words of more than
/// `narrow` letters in 128 bits, the others in 64.
fn join_levels(a: &mut Tensor, b: &Tensor, narrow: u32, scaled: &mut [i128])
    requires shape { IsShape a.old.extent }
    requires same { b.now.extent ≡ a.old.extent }
    requires narrow { narrow ≤ a.old.extent.depth }
    requires starts { coefficient b.now [] ≡ pos 1 }
    requires scaled { a.old.extent.width ^ (a.old.extent.depth - 1) ≤ length scaled.old }
    requires room { (word : List ℕ) → IsWord a.old.extent word → HasJoinRoom limit (prefixes_of a.old word) (coefficient b.now) word }
    requires short { (word : List ℕ) → IsWord a.old.extent word → length word ≤ narrow → HasJoinRoom (2 ^ 63 - 1) (prefixes_of a.old word) (coefficient b.now) word }
    ensures { IsProduct a.old b.now a.new }
{
    let mut k = a.shape().depth();
    'wide: while k > narrow {
        join_level::<Wide>(a, b, k, scaled);
        k -= 1;
    }
    'short: while k > 0 {
        join_level::<Narrow>(a, b, k, scaled);
        k -= 1;
    }
}

/// Writes all coefficients, with scratch for a multiple of one level: small where the levels are,
/// since it is cleared each time.
fn join_in_scratch(a: &mut Tensor, b: &Tensor, narrow: u32)
    requires shape { IsShape a.old.extent }
    requires same { b.now.extent ≡ a.old.extent }
    requires narrow { narrow ≤ a.old.extent.depth }
    requires starts { coefficient b.now [] ≡ pos 1 }
    requires room { (word : List ℕ) → IsWord a.old.extent word → HasJoinRoom limit (prefixes_of a.old word) (coefficient b.now) word }
    requires short { (word : List ℕ) → IsWord a.old.extent word → length word ≤ narrow → HasJoinRoom (2 ^ 63 - 1) (prefixes_of a.old word) (coefficient b.now) word }
    ensures { IsProduct a.old b.now a.new }
{
    if a.level(a.shape().depth() - 1).len() <= 32 {
        join_levels(a, b, narrow, &mut [0i128; 32]);
    } else {
        join_levels(a, b, narrow, &mut [0i128; 256]);
    }
}

/// Multiplies a tensor by another one of its shape, in place, where both are bounded by weights: in
/// 64 bits where these do. Nothing is multiplied by the unit, which is the one of weight 0.
pub fn join_bounded(a: &mut Tensor, b: &Tensor, bound: u128, weight: u128)
    requires shape { IsShape a.old.extent }
    requires same { b.now.extent ≡ a.old.extent }
    requires begins { coefficient a.old [] ≡ pos 1 }
    requires starts { coefficient b.now [] ≡ pos 1 }
    requires bounded { IsBoundedBy a.old bound }
    requires weight { IsBoundedBy b.now weight }
    requires fits { (bound + weight) ^ a.old.extent.depth ≤ limit }
    requires sum { bound + weight ≤ limit }
    ensures { IsProduct a.old b.now a.new }
{
    if weight == 0 {
        return;
    }
    if bound == 0 {
        a.assign(b);
        return;
    }
    let narrow = narrow_depth(bound + weight, a.shape().depth());
    join_in_scratch(a, b, narrow);
}
