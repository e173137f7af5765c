//! Laws of versions. The functions do nothing: what they ensure is the law.
ghost use Rattle.std.specs.Prelude.{◌≡◌, ◌<◌, ◌≤◌, ◌++◌, ℕ, List, length, false};
ghost use Rattle.definitions.specs.Rows.{rows_in};
ghost use Rattle.versions.specs.declared.log.Accepted.{Accepted};
ghost use Rattle.versions.specs.Versions.{LogValue, IsLog, rows_at, touched, since};

/// An accepted edit changes no earlier version.
pub fn earlier_versions_stay()
    ensures { (edits more : List Accepted) (v : ℕ) → v ≤ length edits → rows_at (edits ++ more) v ≡ rows_at edits v }
{}

/// Versions between which no edit has its tick in an interval have the same rows in it.
/// So a version has those of the last one up to it that touches the interval.
pub fn untouched_rows_stay()
    ensures between { (log : LogValue) (a b s v : ℕ) → IsLog log → s ≤ v → v ≤ length log.edits → ((t : ℕ) → s < t → t ≤ v → touched a b log.edits t ≡ false) → rows_in a b (rows_at log.edits v) ≡ rows_in a b (rows_at log.edits s) }
    ensures last { (log : LogValue) (a b v : ℕ) → IsLog log → v ≤ length log.edits → rows_in a b (rows_at log.edits v) ≡ rows_in a b (rows_at log.edits (since a b log.edits v)) }
{}
