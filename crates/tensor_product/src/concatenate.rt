//! The product of two tensors by plain concatenation, word by word.
ghost use Rattle.std.specs.Prelude.{◌≡◌, ◌≢◌, ◌≤◌, ◌*ℤ◌, ℕ, suc, List, length, pos, slice_index_or, unsigned_abs};
ghost use Rattle.definitions.specs.Words.{IsWord, IsShape, shorter};
ghost use Rattle.definitions.specs.Exponentials.{plain_product};
ghost use Rattle.definitions.specs.Signature.{limit};
ghost use Rattle.scaled_tensor.specs.Tensors.{coefficient};
ghost use Rattle.tensor_product.specs.Extension.{prefixes_of};
ghost use Rattle.tensor_product.specs.Concatenation.{plain_sum, HasPlainRoom, IsWrittenBelow, IsWritten};

use crate::extend::{product_of, sum_of};
use scaled_tensor::Tensor;

/// The sum over the cuts of a word, from the coefficients of its prefixes in the first factor.
fn sum_over_parts(prefixes: &[i128], b: &Tensor, word: &[u32]) -> i128
    requires word { IsWord b.now.extent word.now }
    requires short { length word.now ≤ 8 }
    requires prefixes { length prefixes.now ≡ suc (length word.now) }
    requires room { HasPlainRoom (λ i. slice_index_or prefixes.now i (pos 0)) (coefficient b.now) word.now }
    ensures value { result ≡ plain_sum (λ i. slice_index_or prefixes.now i (pos 0)) (coefficient b.now) word.now (suc (length word.now)) }
    ensures bound { unsigned_abs result ≤ limit }
{
    let mut sum = 0;
    for cut in 0..word.len() + 1 {
        let suffix = b.get(&word[cut..]);
        sum = sum_of(sum, product_of(prefixes[cut], suffix));
    }
    sum
}

/// Writes the coefficient of one word.
fn concatenate_word(a: &Tensor, b: &Tensor, product: &mut Tensor, word: &[u32])
    requires word { IsWord a.now.extent word.now }
    requires shape { IsShape a.now.extent }
    requires same { b.now.extent ≡ a.now.extent }
    requires room { HasPlainRoom (prefixes_of a.now word.now) (coefficient b.now) word.now }
    requires extent { product.old.extent ≡ a.now.extent }
    ensures extent { product.new.extent ≡ a.now.extent }
    ensures written { coefficient product.new word.now ≡ plain_product (coefficient a.now) (coefficient b.now) word.now }
    ensures others { (other : List ℕ) → IsWord a.now.extent other → other ≢ word.now → coefficient product.new other ≡ coefficient product.old other }
{
    let mut values = [0i128; 9];
    let prefixes = &mut values[..word.len() + 1];
    a.read_prefixes(word, prefixes);
    let value = sum_over_parts(prefixes, b, word);
    product.set(word, value);
}

/// Writes the coefficients of the words of k letters.
fn concatenate_level(a: &Tensor, b: &Tensor, product: &mut Tensor, k: u32)
    requires shape { IsShape a.now.extent }
    requires same { b.now.extent ≡ a.now.extent }
    requires k { k ≤ a.now.extent.depth }
    requires room { (word : List ℕ) → IsWord a.now.extent word → HasPlainRoom (prefixes_of a.now word) (coefficient b.now) word }
    requires shorter { IsWrittenBelow (shorter a.now.extent.width k) a.now.extent (plain_product (coefficient a.now) (coefficient b.now)) product.old }
    ensures { IsWrittenBelow (shorter a.now.extent.width (suc k)) a.now.extent (plain_product (coefficient a.now) (coefficient b.now)) product.new }
{
    let shape = a.shape();
    let count = a.level(k).len() as u64;
    let mut letters = [0u32; 8];
    let word = &mut letters[..k as usize];
    for index in 0..count {
        shape.write_word(index, word);
        concatenate_word(a, b, product, word);
    }
}

/// Writes the product by plain concatenation of two tensors into a third one of their shape.
/// No step of its sums may leave the range of a coefficient. Takes no memory.
pub(crate) fn concatenate_tensors(a: &Tensor, b: &Tensor, product: &mut Tensor)
    requires shape { IsShape a.now.extent }
    requires same { b.now.extent ≡ a.now.extent }
    requires extent { product.old.extent ≡ a.now.extent }
    requires room { (word : List ℕ) → IsWord a.now.extent word → HasPlainRoom (prefixes_of a.now word) (coefficient b.now) word }
    ensures { IsWritten a.now.extent (plain_product (coefficient a.now) (coefficient b.now)) product.new }
{
    for k in 0..a.shape().depth() + 1 {
        concatenate_level(a, b, product, k);
    }
}
