ghost use Rattle.std.specs.Prelude.{◌≡◌};
ghost use Rattle.script_reader.specs.Limits.{commands_of};

use crate::command::{Command, Commands};
use std::slice;
use watches::Interval;
use words::Shape;

/// What a good content line says.
#[derive(Drop)]
pub(crate) enum Said {
    Shape(Shape),
    /// The next session begins.
    Session,
    /// The interval is watched.
    Watch(Interval),
    Command(Command),
    /// Several commands, in order.
    Commands(Commands),
}

impl Said {
    /// The commands that are said.
    pub(crate) fn commands(&self) -> &[Command]
        ensures { result.now ≡ commands_of self.now }
    {
        match self {
            Said::Shape(_) | Said::Session | Said::Watch(_) => &[],
            Said::Command(command) => slice::from_ref(command),
            Said::Commands(commands) => commands.list(),
        }
    }
}
