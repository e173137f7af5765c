//! The statuses with which the program ends.
ghost use Rattle.std.specs.Prelude.{◌≡◌};
ghost use Rattle.rough_main.specs.Statuses.{code_of};

/// How a call of the program ended.
#[derive(Debug, Clone, Copy, PartialEq, Eq, Drop)]
pub enum Status {
    /// The answers or the summary were written.
    Answered,
    /// The words of the command line are refused.
    WordsRefused,
    /// The script or its order is refused.
    ScriptRefused,
    /// The source failed.
    ReadFailed,
    /// The sink failed.
    WriteFailed,
    /// Memory was wanting.
    NoMemory,
}

impl Status {
    /// The number of the status, with which the program ends.
    pub fn code(self) -> u8
        ensures { result ≡ code_of self }
    {
        match self {
            Status::Answered => 0,
            Status::WordsRefused => 2,
            Status::ScriptRefused => 3,
            Status::ReadFailed => 4,
            Status::WriteFailed => 5,
            Status::NoMemory => 6,
        }
    }
}
