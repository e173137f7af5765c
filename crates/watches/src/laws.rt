//! The law of watches. The function does nothing: what it ensures is the law.
ghost use Rattle.std.specs.Prelude.{◌≡◌, ◌-◌, ◌≤◌, ℕ, length};
ghost use Rattle.std.specs.List.{Contains};
ghost use Rattle.definitions.specs.Rows.{rows_in};
ghost use Rattle.versions.specs.Versions.{LogValue, IsLog, rows_at};
ghost use Rattle.watches.specs.Watches.{touching};

/// A version that doesn't touch an interval has the same rows in it as the version before.
pub fn unlisted_rows_stay()
    ensures { (log : LogValue) (a b v : ℕ) → IsLog log → 1 ≤ v → v ≤ length log.edits → (Contains (touching a b log.edits) v → ⊥) → rows_in a b (rows_at log.edits v) ≡ rows_in a b (rows_at log.edits (v - 1)) }
{}
