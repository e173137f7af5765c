ghost use Rattle.std.specs.Prelude.{◌≡◌, IfOk};

use increments::Name;
use words::{Memory, Move};

/// A change of the rows.
#[derive(Drop)]
pub enum Edit {
    /// A new row at a tick below 2^32.
    Append { name: Name, tick: u64, x: Move },
    /// Another move for the row of this name, which keeps its tick and its birth.
    Correct { name: Name, x: Move },
    /// The row of this name goes; the name may be used again.
    Remove { name: Name },
}

impl Edit {
    /// An equal edit, which shares the name and the move of this one.
    pub fn copy(&self) -> Result<Edit, Memory>
        ensures { IfOk result (λ edit. edit ≡ self.now) }
    {
        Ok(match self {
            Edit::Append { name, tick, x } => Edit::Append {
                name: name.copy()?,
                tick: *tick,
                x: x.copy()?,
            },
            Edit::Correct { name, x } => Edit::Correct {
                name: name.copy()?,
                x: x.copy()?,
            },
            Edit::Remove { name } => Edit::Remove { name: name.copy()? },
        })
    }
}

/// The reply to an edit, with the version after it.
#[derive(Debug, Clone, Copy, PartialEq, Eq, Drop)]
pub enum EditReply {
    /// The edit is committed.
    Done(u64),
    /// A row has the name already: nothing changed.
    NameTaken(u64),
    /// No row has the name: nothing changed.
    NoRow(u64),
}
