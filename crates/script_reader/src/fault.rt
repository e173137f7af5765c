ghost use Rattle.std.specs.Prelude.{◌≡◌};
ghost use Rattle.script_reader.specs.Reading.{fault_at};

use std::alloc::{AllocError, AllocFailed};
use words::Memory;

/// Why a line of a script is refused. In one line the reasons are tried in this order; the fields are read from left to right.
#[derive(Debug, Clone, Copy, PartialEq, Eq, Drop)]
pub enum Reason {
    /// A byte other than tab and 32 .. 126.
    Byte,
    /// The first word is no keyword.
    Keyword,
    /// The first content line isn't `shape`, a later one is, or a command stands before the first session.
    Place,
    /// The number of words isn't that of the form.
    Fields,
    /// A field isn't a name.
    Name,
    /// A field isn't a time in range.
    Time,
    /// A field isn't a number in range.
    Number,
    /// The width isn't in 1 .. 12.
    Width,
    /// The depth isn't in 1 .. 8.
    Depth,
    /// The shape has more than 2,000 words.
    Words,
    /// The session's number isn't the next one, or exceeds 16.
    Session,
    /// `from` exceeds `to`.
    Interval,
    /// The resolution exceeds 16.
    Resolution,
    /// It is the 65th watch.
    Watches,
    /// It is the 65,537th command.
    Commands,
    /// The commands so far times the words of the shape exceed 8,000,000.
    Load,
    /// The queries so far times the words of the shape exceed 2,000,000.
    Answers,
    /// There is no shape line or no session line.
    End,
}

/// Why a script is refused.
#[derive(Debug, Clone, Copy, PartialEq, Eq, Drop)]
pub enum ScriptFault {
    /// More than 4,194,304 bytes.
    Size,
    /// The first bad line, from 1, and its first reason.
    Line(u64, Reason),
    /// Want of memory.
    Memory,
}

/// Why a line isn't read.
#[derive(Drop)]
pub enum LineFault {
    /// It is bad, for this reason.
    Bad(Reason),
    /// Want of memory.
    Memory,
}

/// The fault of a text whose line of this number is refused so.
pub fn fault_at(number: u64, fault: LineFault) -> ScriptFault
    ensures { result ≡ fault_at number fault }
{
    match fault {
        LineFault::Bad(reason) => ScriptFault::Line(number, reason),
        LineFault::Memory => ScriptFault::Memory,
    }
}

impl From<AllocError> for LineFault {
    ghost use Rattle.std.specs.Prelude.{◌≡◌};
    ghost use Rattle.script_reader.specs.declared.fault.LineFault.{LineFault};
    ghost use Rattle.script_reader.specs.declared.fault.LineFault.TheVariants as faults;

    ghost from_gives = { λ _ e. e ≡ faults.Memory };

    fn from(_error: AllocError) -> LineFault {
        LineFault::Memory
    }
}

impl<T: Drop> From<AllocFailed<T>> for LineFault {
    ghost use Rattle.std.specs.Prelude.{◌≡◌};
    ghost use Rattle.script_reader.specs.declared.fault.LineFault.{LineFault};
    ghost use Rattle.script_reader.specs.declared.fault.LineFault.TheVariants as faults;

    ghost from_gives = { λ _ e. e ≡ faults.Memory };

    fn from(_error: AllocFailed<T>) -> LineFault {
        LineFault::Memory
    }
}

impl From<Memory> for LineFault {
    ghost use Rattle.std.specs.Prelude.{◌≡◌};
    ghost use Rattle.script_reader.specs.declared.fault.LineFault.{LineFault};
    ghost use Rattle.script_reader.specs.declared.fault.LineFault.TheVariants as faults;

    ghost from_gives = { λ _ e. e ≡ faults.Memory };

    fn from(_error: Memory) -> LineFault {
        LineFault::Memory
    }
}
