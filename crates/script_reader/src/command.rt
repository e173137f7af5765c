ghost use Rattle.std.specs.Prelude.{◌≡◌, ◌∷◌, [], ◌++◌, is_ok, if◌then◌else◌};
ghost use Rattle.script_reader.specs.Limits.{is_query};

use std::alloc::Global;
use std::marker::Model;
use versions::Edit;
use words::Memory;

/// What a query asks for.
#[derive(Debug, Clone, Copy, PartialEq, Eq, Drop)]
pub enum Kind {
    /// The signature.
    Sig,
    /// The logarithm of the signature, in Hall coordinates.
    Log,
}

/// A query over the ticks `from .. to`, both at most 2^32, at a resolution from 0 to 16; of the current version where none is named.
#[derive(Clone, Copy, Drop)]
pub struct Ask {
    pub kind: Kind,
    pub from: u64,
    pub to: u64,
    pub r: u8,
    pub version: Option<u64>,
}

/// A step of a session.
#[derive(Drop)]
pub enum Command {
    Edit(Edit),
    Ask(Ask),
}

impl Command {
    /// Whether this is a query.
    pub(crate) fn is_query(&self) -> bool
        ensures { result ≡ is_query self.now }
    {
        matches!(self, Command::Ask(_))
    }
}

/// The commands of a session, in order.
#[derive(Drop)]
pub struct Commands {
    commands: Vec<Command>,
}

impl Model for Commands {
    ghost use Rattle.std.specs.Prelude.{List};
    ghost use Rattle.script_reader.specs.declared.command.Command.{Command};

    ghost Value = { List Command };

    ghost view = { λ c. c.commands.items };
}

impl Commands {
    /// The commands of a vector.
    pub fn of(commands: Vec<Command>) -> Commands
        ensures { result ≡ commands.items }
    {
        Commands { commands }
    }

    /// The commands as a slice.
    pub fn list(&self) -> &[Command]
        ensures { result.now ≡ self.now }
    {
        &self.commands
    }

    /// The commands as a vector.
    pub(crate) fn into_vec(self) -> Vec<Command>
        ensures { result.items ≡ self }
    {
        self.commands
    }

    /// No commands.
    pub(crate) fn new(alloc: Global) -> Commands
        ensures { result ≡ [] }
    {
        Commands {
            commands: Vec::new(alloc),
        }
    }

    /// Adds a command at the end; a command that finds no room is dropped.
    pub(crate) fn push(&mut self, command: Command) -> Result<(), Memory>
        ensures { self.new ≡ (if is_ok result then self.old ++ command ∷ [] else self.old) }
    {
        self.commands.push(command)?;
        Ok(())
    }
}
