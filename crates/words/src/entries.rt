ghost use Rattle.std.specs.Prelude.{◌≡◌};

use std::marker::Model;

/// A list of whole numbers: the entries of a part of a move.
#[derive(Drop)]
pub struct Entries {
    entries: Vec<i64>,
}

impl Model for Entries {
    ghost use Rattle.std.specs.Prelude.{ℤ, List};

    ghost Value = { List ℤ };

    ghost view = { λ e. e.entries.items };
}

impl Entries {
    /// The list of these numbers.
    pub fn of(entries: Vec<i64>) -> Entries
        ensures { result ≡ entries.items }
    {
        Entries { entries }
    }

    /// The numbers.
    pub fn list(&self) -> &[i64]
        ensures { result.now ≡ self.now }
    {
        &self.entries
    }
}
