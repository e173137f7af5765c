//! What was said so far, counted, and the limits on commands.
ghost use Rattle.std.specs.Prelude.{◌≡◌, ◌<◌, ◌≤◌, Some, true, false, nat_lt, MatchOption};
ghost use Rattle.script_reader.specs.Fields.{first_of};
ghost use Rattle.script_reader.specs.Limits.{named, total_words, with_command, limit_tests, limit_reason};
ghost use Rattle.script_reader.specs.Reading.{IsTally};

use crate::command::Command;
use crate::fault::Reason;
use words::Shape;

const MOST_COMMANDS: u64 = 65_536;
/// The most that commands times words of the shape come to.
const MOST_LOAD: u64 = 8_000_000;
/// The most that queries times words of the shape come to.
const MOST_ANSWERS: u64 = 2_000_000;

/// What the content lines so far say, as far as the reasons of the next line depend on it.
#[derive(Clone, Copy, Drop)]
pub(crate) struct Tally {
    /// The shape that the first content line names.
    pub shape: Option<Shape>,
    /// The session lines.
    pub sessions: u64,
    /// The watch lines.
    pub watches: u64,
    /// The commands, queries included.
    pub commands: u64,
    /// The queries.
    pub queries: u64,
}

impl Tally {
    /// The shape, where a command may stand: after the first session line.
    pub(crate) fn open_shape(&self) -> Option<Shape>
        requires { IsTally self.now }
        ensures { MatchOption result (nat_lt 0 self.now.sessions ≡ false) (λ shape. (nat_lt 0 self.now.sessions ≡ true) × (self.now.shape ≡ Some shape)) }
    {
        if self.sessions > 0 { self.shape } else { None }
    }

    /// The tally after one command more.
    pub(crate) fn with_command(&self, command: &Command) -> Tally
        requires { IsTally self.now }
        ensures { result ≡ with_command self.now command.now }
    {
        Tally {
            commands: self.commands + 1,
            queries: self.queries + u64::from(command.is_query()),
            ..*self
        }
    }

    /// The words of the shape; before there is one, the empty word alone.
    fn words(&self) -> u64
        ensures value { result ≡ total_words (named self.now.shape) }
        ensures bound { result ≤ 2000 }
    {
        self.shape.map_or(1, |shape| shape.total())
    }

    /// The first limit that this tally, with a command more counted in, exceeds.
    fn exceeded(&self) -> Option<Reason>
        requires commands { self.now.commands ≤ 65537 }
        requires queries { self.now.queries ≤ self.now.commands }
        ensures { result ≡ first_of (limit_tests self.now) }
    {
        let words = self.words();
        if self.commands > MOST_COMMANDS {
            return Some(Reason::Commands);
        }
        if self.commands * words > MOST_LOAD {
            return Some(Reason::Load);
        }
        if self.queries * words > MOST_ANSWERS {
            return Some(Reason::Answers);
        }
        None
    }
}

/// The first limit that these commands meet, each of them counted in turn.
pub(crate) fn limit_reason(before: &Tally, commands: &[Command]) -> Option<Reason>
    requires { IsTally before.now }
    ensures { result ≡ limit_reason before.now commands.now }
{
    let mut tally = *before;
    for command in commands {
        tally = tally.with_command(command);
        let reason = tally.exceeded();
        if reason.is_some() {
            return reason;
        }
    }
    None
}
