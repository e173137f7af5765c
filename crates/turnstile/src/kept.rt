ghost use Rattle.std.specs.Prelude.{ℕ, ◌<◌, ◌^◌, List, length};

/// A value that stands for a list of entries, each with a label, in a frame.
pub trait Kept: Drop {
    /// What one hold adds.
    type Entry;

    // The entries that a value stands for.
    ghost entries: { Self → List Self.Entry };

    // The label of the pass that added an entry.
    ghost label: { Self.Entry → ℕ };

    // What no hold changes.
    ghost frame: { Self → List ℕ };

    // The word of the table has room for twice as many, and for the turn.
    ghost few: { (state : Self) → length (entries state) < 2 ^ 62 };
}
