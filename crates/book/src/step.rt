ghost use Rattle.std.specs.Prelude.{◌≡◌};
ghost use Rattle.book.specs.Play.{session_of};

use crate::query::Query;
use versions::{Edit, EditReply};

/// The reply to a look.
#[derive(Debug, Clone, Copy, PartialEq, Eq, Drop)]
pub enum LookReply {
    /// The rows of this version have an answer. So many visited nodes are kept, so many with rows aren't, and so many rows are exponentiated.
    Found {
        version: u64,
        hits: u64,
        misses: u64,
        exps: u64,
    },
    /// There is no version of the named number: the current one.
    NoVersion(u64),
    /// The bracket of these two members of the Hall set is too heavy.
    Pair(u32, u32),
    /// The images of words of so many letters are too heavy.
    Level(u32),
    /// The rows don't fit: their weight.
    Overflow(u128),
}

/// A step of a session, whose number from 1 comes first, with its reply.
#[derive(Drop)]
pub enum Step {
    Edited(u32, Edit, EditReply),
    Looked(u32, Query, LookReply),
    /// A look was settled: so many nodes were kept, those that were dropped again included.
    Settled(u32, u64),
}

impl Step {
    /// The session whose step it is.
    pub fn session(&self) -> u32
        ensures { result ≡ session_of self.now }
    {
        match self {
            Step::Edited(session, _, _) => *session,
            Step::Looked(session, _, _) => *session,
            Step::Settled(session, _) => *session,
        }
    }
}
