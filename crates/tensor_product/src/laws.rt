//! Laws of signatures. The functions do nothing: what they ensure is the law.
ghost use Rattle.std.specs.Prelude.{◌≡◌, ◌+◌, ◌^◌, ◌≤◌, ◌++◌, List, All, ℕ, suc, length, unsigned_abs};
ghost use Rattle.definitions.specs.Words.{Extent, IsWord};
ghost use Rattle.definitions.specs.Moves.{Parts, IsMove};
ghost use Rattle.definitions.specs.Signature.{signature, weight};
ghost use Rattle.definitions.specs.Products.{scaled_product, product_term};
ghost use Rattle.definitions.specs.Sums.{sum_below};

/// Chen's identity: the signature of the moves of two lists, one after the other, is the product
/// of their signatures.
pub fn joined_moves()
    ensures { (a b : List Parts) (word : List ℕ) → signature (a ++ b) word ≡ scaled_product (signature a) (signature b) word }
{}

/// For moves and words of one shape the coefficient of k letters is at most the k-th power of the weight.
pub fn bounded_by_weight()
    ensures { (extent : Extent) (moves : List Parts) (word : List ℕ) → All (IsMove extent) moves → IsWord extent word → unsigned_abs (signature moves word) ≤ weight moves ^ length word }
{}

/// So is each partial sum of the product of two signatures, with the sum of their weights.
pub fn partial_sums_bounded_by_weight()
    ensures { (extent : Extent) (a b : List Parts) (word : List ℕ) (n : ℕ) → All (IsMove extent) a → All (IsMove extent) b → IsWord extent word → n ≤ suc (length word) → unsigned_abs (sum_below n (product_term (signature a) (signature b) word)) ≤ (weight a + weight b) ^ length word }
{}
