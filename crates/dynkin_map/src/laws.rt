//! The law of coordinates. The function does nothing: what it ensures is the law.
ghost use Rattle.std.specs.Prelude.{◌≡◌, ◌*ℤ◌, ◌≤◌, List, ℕ, ℤ, pos, length};
ghost use Rattle.definitions.specs.Words.{Extent, IsWord};
ghost use Rattle.definitions.specs.Commutators.{VanishesAt};
ghost use Rattle.definitions.specs.Hall.{hall_list, expansion};
ghost use Rattle.lie_bracket.specs.Brackets.{expanded};
ghost use Rattle.dynkin_map.specs.Coordinates.{coordinates};

/// Dynkin's theorem, for each number of letters by itself: where a series vanishes on the shuffles of two nonempty words of together k
/// letters, its coordinates, each times the expansion of its member, add up to k times the series at each word of k letters.
pub fn coordinates_expand()
    ensures { (extent : Extent) (series : List ℕ → ℤ) (word : List ℕ) → IsWord extent word → 1 ≤ length word → VanishesAt extent.width series (length word)
        → expanded (expansion (hall_list extent.width extent.depth)) (coordinates extent series) word ≡ pos (length word) *ℤ series word }
{}
