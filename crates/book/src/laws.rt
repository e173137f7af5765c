//! Laws of plays. The functions do nothing: what they ensure is the law.
ghost use Rattle.std.specs.Prelude.{◌≡◌, ◌≢◌, ◌≤◌, ◌^◌, ℕ, List, All, AllPairs};
ghost use Rattle.book.specs.Play.{State, Request, played, steps_of, pending_of};
ghost use Rattle.book.specs.Seen.{asker, versions_seen};
ghost use Rattle.book.specs.Walks.{pieces_of};
ghost use Rattle.decompose.specs.Pieces.{IsPieces};

/// Along any play the versions in the replies never fall, those to looks that name a version left out. So the version of an answer is no
/// older than any that its session had seen.
pub fn versions_never_fall()
    ensures { (capacity : ℕ) → (state : State) → (requests : List Request) → AllPairs (λ v w. v ≤ w) (versions_seen (steps_of capacity state requests)) }
{}

/// A session's pending look is as it was, after any steps of other sessions.
pub fn pending_look_stays()
    ensures { (capacity session : ℕ) → (state : State) → (requests : List Request) → 1 ≤ session
        → All (λ request. (1 ≤ asker request) × (asker request ≢ session)) requests → pending_of session (played capacity state requests).pending ≡ pending_of session state.pending }
{}

/// The nodes that a look walks are all maximal dyadic nodes within its interval, by rising start.
pub fn pieces_are_maximal()
    ensures { (a b : ℕ) → a ≤ b → b ≤ 2 ^ 32 → IsPieces a b (pieces_of a b) }
{}
