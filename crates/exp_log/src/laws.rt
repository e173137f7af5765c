//! Laws of the logarithm. The functions do nothing: what they ensure is the law.
ghost use Rattle.std.specs.Prelude.{◌≡◌, ◌+◌, ◌*◌, ◌^◌, ◌≤◌, ◌*ℤ◌, List, All, ℕ, pos, length, unsigned_abs};
ghost use Rattle.definitions.specs.Words.{Extent, IsWord, binom};
ghost use Rattle.definitions.specs.Moves.{Parts, IsMove};
ghost use Rattle.definitions.specs.Signature.{signature, weight};
ghost use Rattle.definitions.specs.Shuffles.{shuffles, sum_over};
ghost use Rattle.definitions.specs.Logarithm.{logarithm, log_bound as bound_factor};

/// For moves and words of one shape the logarithm of a signature at k letters is at most the k-th power of the weight
/// times the bound of a logarithm.
pub fn bounded_by_weight()
    ensures { (extent : Extent) (moves : List Parts) (word : List ℕ) → All (IsMove extent) moves → IsWord extent word → unsigned_abs (logarithm (signature moves) word) ≤ weight moves ^ length word * bound_factor (length word) }
{}

/// The shuffle relations of a signature: over the shuffles of two words its numerators add up to
/// the product of those of the two, times the binomial that their denominators differ by.
/// (Reutenauer, Free Lie Algebras, theorem 3.2.)
pub fn signature_obeys_shuffles()
    ensures { (moves : List Parts) (u v : List ℕ) → sum_over (signature moves) (shuffles u v) ≡ pos (binom (length u + length v) (length u)) *ℤ (signature moves u *ℤ signature moves v) }
{}

/// The logarithm of a signature vanishes on the shuffles of two nonempty words, of at most eight
/// letters together: it is a Lie element.
/// (Reutenauer, Free Lie Algebras, theorem 3.1.)
pub fn logarithm_vanishes_on_shuffles()
    ensures { (moves : List Parts) (u v : List ℕ) → 1 ≤ length u → 1 ≤ length v → length u + length v ≤ 8 → sum_over (logarithm (signature moves)) (shuffles u v) ≡ pos 0 }
{}
