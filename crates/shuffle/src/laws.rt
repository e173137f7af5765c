//! The dual of right-normed bracketing. The functions do nothing: what they ensure is the law.
ghost use Rattle.std.specs.Prelude.{◌≡◌, ◌≤◌, ◌*ℤ◌, ℕ, ℤ, suc, pos, List, All, length};
ghost use Rattle.definitions.specs.Words.{IsLetter};
ghost use Rattle.definitions.specs.Sums.{sum_below};
ghost use Rattle.definitions.specs.Commutators.{dual, folded_term, VanishesAt};

/// The dual of right-normed bracketing sends a word w of k letters to the sum over i of (-1)^(k-i) i times the shuffles of the first
/// i letters and the others reversed: k w itself, and shuffles of nonempty words. Here a series f is summed over both sides.
/// (Reutenauer, Free Lie Algebras, section 1.4 and theorem 1.4.)
pub fn dual_is_sum_of_shuffles()
    ensures { (width : ℕ) (f : List ℕ → ℤ) (word : List ℕ) → 1 ≤ length word → All (IsLetter width) word → dual width f word ≡ sum_below (suc (length word)) (folded_term pos f word) }
{}

/// Where a series vanishes on the shuffles of nonempty words, only the word itself is left.
pub fn dual_of_vanishing()
    ensures { (width : ℕ) (f : List ℕ → ℤ) (word : List ℕ) → 1 ≤ length word → All (IsLetter width) word → VanishesAt width f (length word) → dual width f word ≡ pos (length word) *ℤ f word }
{}
