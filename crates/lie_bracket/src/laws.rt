//! Laws of brackets. The functions do nothing: what they ensure is the law.
ghost use Rattle.std.specs.Prelude.{◌≡◌, ◌+◌, ◌≤◌, ℕ, List, neg_ℤ};
ghost use Rattle.definitions.specs.Words.{Extent, IsShape};
ghost use Rattle.definitions.specs.Commutators.{commutator};
ghost use Rattle.definitions.specs.Hall.{InHall, hall_list, degree, expansion};
ghost use Rattle.lie_bracket.specs.Brackets.{bracket, majorant, expanded};
ghost use Rattle.lie_bracket.specs.Rewriting.{IsBracket};

/// The bracket of two members of a Hall set whose degrees add up to at most the depth, expanded, is the commutator of their expansions.
pub fn bracket_expands()
    ensures { (extent : Extent) (a b : ℕ) → IsShape extent → InHall (hall_list extent.width extent.depth) a → InHall (hall_list extent.width extent.depth) b → degree (hall_list extent.width extent.depth) a + degree (hall_list extent.width extent.depth) b ≤ extent.depth → (word : List ℕ) → expanded (expansion (hall_list extent.width extent.depth)) (bracket extent.depth (hall_list extent.width extent.depth) a b) word ≡ commutator (expansion (hall_list extent.width extent.depth) a) (expansion (hall_list extent.width extent.depth) b) word }
{}

/// The bracket meets the equations of the rewriting by Jacobi's identity, for all members of a Hall set, whatever it spends on the way:
/// of a member with itself it is nothing, and so it is past the depth; in the other order it has the other sign; a pair of the set is its own
/// bracket; any other is that of the parents of the greater member.
pub fn bracket_is_rewritten()
    ensures { (extent : Extent) → IsShape extent → IsBracket neg_ℤ extent.depth (hall_list extent.width extent.depth) (bracket extent.depth (hall_list extent.width extent.depth)) }
{}

/// The majorant meets the same equations with every sign plus.
pub fn majorant_is_rewritten()
    ensures { (extent : Extent) → IsShape extent → IsBracket (λ k. k) extent.depth (hall_list extent.width extent.depth) (majorant extent.depth (hall_list extent.width extent.depth)) }
{}
