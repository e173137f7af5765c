ghost use Rattle.std.specs.Prelude.{◌≡◌, ◌≢◌, ◌+◌, ◌-◌, ◌^◌, ◌<◌, ◌≤◌, ◌+ℤ◌, ℕ, suc, List, All, length, take, pos, slice_index_or, unsigned_abs, IfOk, IsTrue, ◌↔◌};
ghost use Rattle.definitions.specs.Words.{IsShape, IsWord, IsLetter, shorter, number};
ghost use Rattle.definitions.specs.Products.{unit as one};
ghost use Rattle.definitions.specs.Signature.{limit};
ghost use Rattle.scaled_tensor.specs.Tensors.{TensorValue, IsTensor, coefficient, outer_at, HasOuterRoomWithin};

use crate::arithmetic::Arithmetic;
use crate::outer;
use std::alloc::Global;
use std::marker::Model;
use words::{Memory, Shape};

/// A whole number from -(2^127 - 1) to 2^127 - 1 for each word of a shape: the coefficients of a truncated series.
#[derive(Drop)]
pub struct Tensor {
    shape: Shape,
    coefficients: Vec<i128>,
}

impl Model for Tensor {
    ghost use Rattle.scaled_tensor.specs.Tensors.{TensorValue, IsTensor};

    ghost Value = { TensorValue };

    ghost view = { λ t. record { extent = t.shape; coefficients = t.coefficients.items } };

    ghost invariant = { λ t. IsTensor (record { extent = t.shape; coefficients = t.coefficients.items }) };
}

/// Reads the coefficients of all prefixes of a word, the empty one first. The place of a word is
/// the number of shorter words and its own number among the words of its length.
fn read_along(coefficients: &[i128], width: usize, word: &[u32], values: &mut [i128])
    requires enough { shorter width (suc (length word.now)) ≤ length coefficients.now }
    requires few { length coefficients.now ≤ 2000 }
    requires letters { All (IsLetter width) word.now }
    requires room { length values.old ≡ suc (length word.now) }
    ensures { (i : ℕ) → i ≤ length word.now → slice_index_or values.new i (pos 0) ≡ slice_index_or coefficients.now (shorter width i + number width (take i word.now)) (pos 0) }
{
    let mut before = 0;
    let mut level = 1;
    let mut number = 0;
    values[0] = coefficients[0];
    for at in 0..word.len() {
        number = number * width + (word[at] - 1) as usize;
        before += level;
        level *= width;
        values[at + 1] = coefficients[before + number];
    }
}

impl Tensor {
    /// The series of 1: 1 at the empty word, 0 at the others.
    pub fn unit(alloc: Global, shape: Shape) -> Result<Tensor, Memory>
        ensures extent { IfOk result (λ t. t.extent ≡ shape) }
        ensures value { IfOk result (λ t. (word : List ℕ) → IsWord shape word → coefficient t word ≡ one word) }
    {
        let total = shape.total() as usize;
        let mut coefficients = Vec::with_capacity(alloc, total)?;
        coefficients.push(1)?;
        for _i in 1..total {
            coefficients.push(0)?;
        }
        Ok(Tensor {
            shape,
            coefficients,
        })
    }

    /// The series of 0: 0 at every word.
    pub fn zero(alloc: Global, shape: Shape) -> Result<Tensor, Memory>
        ensures extent { IfOk result (λ t. t.extent ≡ shape) }
        ensures value { IfOk result (λ t. (word : List ℕ) → IsWord shape word → coefficient t word ≡ pos 0) }
    {
        Ok(Tensor {
            shape,
            coefficients: vec![in alloc; 0i128; shape.total() as usize]?,
        })
    }

    /// An equal tensor.
    pub fn copy(&self, alloc: Global) -> Result<Tensor, Memory>
        ensures { IfOk result (λ t. t ≡ self.now) }
    {
        Ok(Tensor {
            shape: self.shape,
            coefficients: Vec::from_slice(alloc, &self.coefficients)?,
        })
    }

    /// Becomes another tensor of its shape. Takes no memory.
    pub fn assign(&mut self, other: &Tensor)
        requires { other.now.extent ≡ self.old.extent }
        ensures { self.new ≡ other.now }
    {
        self.coefficients.copy_from_slice(&other.coefficients);
    }

    /// Whether the shapes are equal, and the coefficients of each word.
    pub fn equal(&self, other: &Tensor) -> bool
        ensures { IsTrue result ↔ self.now ≡ other.now }
    {
        if self.shape.width() != other.shape.width() || self.shape.depth() != other.shape.depth() {
            return false;
        }
        self.coefficients.as_slice() == other.coefficients.as_slice()
    }

    /// The shape whose words have coefficients.
    pub fn shape(&self) -> Shape
        ensures value { result ≡ self.now.extent }
        ensures shape { IsShape self.now.extent }
    {
        self.shape
    }

    /// The coefficient of a word.
    pub fn get(&self, word: &[u32]) -> i128
        requires { IsWord self.now.extent word.now }
        ensures value { result ≡ coefficient self.now word.now }
        ensures bound { unsigned_abs result ≤ limit }
    {
        let place = self.shape.place_of(word);
        self.coefficients[place as usize]
    }

    /// Reads the coefficients of all prefixes of a word in one pass: `values[i]` becomes that of
    /// the first `i` letters.
    pub fn read_prefixes(&self, word: &[u32], values: &mut [i128])
        requires word { IsWord self.now.extent word.now }
        requires room { length values.old ≡ suc (length word.now) }
        ensures values { (i : ℕ) → i ≤ length word.now → slice_index_or values.new i (pos 0) ≡ coefficient self.now (take i word.now) }
    {
        read_along(
            &self.coefficients,
            self.shape.width() as usize,
            word,
            values,
        );
    }

    /// Writes the coefficient of a word.
    pub fn set(&mut self, word: &[u32], value: i128)
        requires word { IsWord self.old.extent word.now }
        requires range { unsigned_abs value ≤ limit }
        ensures extent { self.new.extent ≡ self.old.extent }
        ensures written { coefficient self.new word.now ≡ value }
        ensures others { (other : List ℕ) → IsWord self.old.extent other → other ≢ word.now → coefficient self.new other ≡ coefficient self.old other }
    {
        let place = self.shape.place_of(word);
        self.coefficients[place as usize] = value;
    }

    /// Writes 0 for each word of k letters.
    pub fn clear(&mut self, k: u32)
        requires { k ≤ self.old.extent.depth }
        ensures extent { self.new.extent ≡ self.old.extent }
        ensures cleared { (word : List ℕ) → IsWord self.old.extent word → length word ≡ k → coefficient self.new word ≡ pos 0 }
        ensures others { (word : List ℕ) → IsWord self.old.extent word → length word ≢ k → coefficient self.new word ≡ coefficient self.old word }
    {
        let from = self.shape.before(k) as usize;
        let next = self.shape.before(k + 1) as usize;
        outer::clear(&mut self.coefficients, from, next);
    }

    /// Adds an outer product to the coefficients of the words of k letters: at each word the number
    /// of its first `cut` letters in the one list times that of the others in the other list.
    pub fn add_outer<A: Arithmetic>(&mut self, k: u32, cut: u32, left: &[i128], right: &[i128])
        requires k { k ≤ self.old.extent.depth }
        requires cut { cut ≤ k }
        requires left { length left.now ≡ self.old.extent.width ^ cut }
        requires right { length right.now ≡ self.old.extent.width ^ (k - cut) }
        requires left_in { (q : ℕ) → q < length left.now → unsigned_abs (slice_index_or left.now q (pos 0)) ≤ A.most }
        requires right_in { (r : ℕ) → r < length right.now → unsigned_abs (slice_index_or right.now r (pos 0)) ≤ A.most }
        requires room { (word : List ℕ) → IsWord self.old.extent word → length word ≡ k → HasOuterRoomWithin A.most self.old cut left.now right.now word }
        ensures extent { self.new.extent ≡ self.old.extent }
        ensures added { (word : List ℕ) → IsWord self.old.extent word → length word ≡ k → coefficient self.new word ≡ coefficient self.old word +ℤ outer_at self.old.extent.width cut left.now right.now word }
        ensures others { (word : List ℕ) → IsWord self.old.extent word → length word ≢ k → coefficient self.new word ≡ coefficient self.old word }
    {
        let from = self.shape.before(k) as usize;
        outer::add_outer::<A>(&mut self.coefficients, from, left, right);
    }

    /// The coefficients of the words of k letters, in lexicographic order.
    pub fn level(&self, k: u32) -> &[i128]
        requires { k ≤ self.now.extent.depth }
        ensures len { length result.now ≡ self.now.extent.width ^ k }
        ensures value { (word : List ℕ) → IsWord self.now.extent word → length word ≡ k → slice_index_or result.now (number self.now.extent.width word) (pos 0) ≡ coefficient self.now word }
        ensures bound { All (λ z. unsigned_abs z ≤ limit) result.now }
    {
        let from = self.shape.before(k) as usize;
        let to = self.shape.before(k + 1) as usize;
        &self.coefficients[from..to]
    }
}
