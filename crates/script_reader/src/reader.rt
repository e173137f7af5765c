//! Reading a script line by line, with running counts.
ghost use Rattle.std.specs.Prelude.{◌≡◌, ◌≢◌, ◌<◌, [], nat_lt, true, false, None, Ok, IfOk, IfErr, Err, MatchOption, MatchResult};
ghost use Rattle.script_reader.specs.Coordinates.{degree_counts};
ghost use Rattle.script_reader.specs.Limits.{named, commands_of, nothing_said, with_command, with_commands, with_said, limit_reason};
ghost use Rattle.script_reader.specs.Lines.{reason_after};
ghost use Rattle.script_reader.specs.Script.{onto_last, all_onto_last, sessions_with, watches_with, parse};
ghost use Rattle.script_reader.specs.Reading.{IsRefusal, IsNext, Keeps, Takes};

use crate::command::{Command, Commands};
use crate::coordinates::counts_of;
use crate::fault::{LineFault, Reason, ScriptFault, fault_at};
use crate::form::read_line;
use crate::said::Said;
use crate::script::Script;
use crate::tally::Tally;
use spellings::{is_content, line_at};
use std::alloc::Global;
use watches::Interval;
use words::Memory;

/// The most bytes of a script.
pub const MOST_BYTES: usize = 4_194_304;

/// A script as far as it was read.
#[derive(Drop)]
struct Reader {
    tally: Tally,
    /// How many coordinates the shape has up to each degree.
    counts: Vec<usize>,
    sessions: Vec<Commands>,
    watches: Vec<Interval>,
}

impl Reader {
    /// Before the first line.
    fn new(alloc: Global) -> Reader
        ensures tally { result.tally ≡ nothing_said }
        ensures counts { result.counts.items ≡ [] }
        ensures sessions { result.sessions.items ≡ [] }
        ensures watches { result.watches.items ≡ [] }
    {
        Reader {
            tally: Tally {
                shape: None,
                sessions: 0,
                watches: 0,
                commands: 0,
                queries: 0,
            },
            counts: Vec::new(alloc),
            sessions: Vec::new(alloc),
            watches: Vec::new(alloc),
        }
    }

    /// Opens the next session.
    fn open_session(&mut self, alloc: Global) -> Result<(), Memory>
        requires { self.old.tally.sessions < 16 }
        ensures added { IfOk result (λ _. (self.new.tally ≡ with_said self.old.tally Said.Session) × (self.new.sessions.items ≡ sessions_with self.old.sessions.items Said.Session)) }
        ensures counts { self.new.counts ≡ self.old.counts }
        ensures watches { self.new.watches ≡ self.old.watches }
    {
        self.sessions.push(Commands::new(alloc))?;
        self.tally.sessions += 1;
        Ok(())
    }

    /// Watches an interval.
    fn add_watch(&mut self, interval: Interval) -> Result<(), Memory>
        requires { self.old.tally.watches < 64 }
        ensures added { IfOk result (λ _. (self.new.tally ≡ with_said self.old.tally (Said.Watch interval)) × (self.new.watches.items ≡ watches_with self.old.watches.items (Said.Watch interval))) }
        ensures counts { self.new.counts ≡ self.old.counts }
        ensures sessions { self.new.sessions ≡ self.old.sessions }
    {
        self.watches.push(interval)?;
        self.tally.watches += 1;
        Ok(())
    }

    /// Adds a command to the last session.
    #[tactic(auto, using(crate::proofs::Kept::onto_last_put))]
    fn add_command(&mut self, command: Command) -> Result<(), Memory>
        requires opened { 0 < self.old.tally.sessions }
        requires keeps { Keeps self.old.tally self.old.sessions.items self.old.watches.items }
        ensures added { IfOk result (λ _. (self.new.tally ≡ with_command self.old.tally command) × (self.new.sessions.items ≡ onto_last command self.old.sessions.items)) }
        ensures counts { self.new.counts ≡ self.old.counts }
        ensures watches { self.new.watches ≡ self.old.watches }
    {
        self.tally = self.tally.with_command(&command);
        let last = self.sessions.len() - 1;
        let session = &mut self.sessions[last];
        session.push(command)
    }

    /// Adds commands to the last session, in order.
    fn add_commands(&mut self, commands: Commands) -> Result<(), Memory>
        requires next { IsNext self.old.tally (Said.Commands commands) }
        requires within { limit_reason self.old.tally commands ≡ None }
        requires keeps { Keeps self.old.tally self.old.sessions.items self.old.watches.items }
        ensures added { IfOk result (λ _. (self.new.tally ≡ with_commands self.old.tally commands) × (self.new.sessions.items ≡ all_onto_last self.old.sessions.items commands)) }
        ensures counts { self.new.counts ≡ self.old.counts }
        ensures watches { self.new.watches ≡ self.old.watches }
    {
        for command in commands.into_vec() {
            self.add_command(command)?;
        }
        Ok(())
    }

    /// Adds what a good line says.
    fn add(&mut self, alloc: Global, said: Said) -> Result<(), Memory>
        requires next { IsNext self.old.tally said }
        requires within { limit_reason self.old.tally (commands_of said) ≡ None }
        requires keeps { Keeps self.old.tally self.old.sessions.items self.old.watches.items }
        requires counted { self.old.counts.items ≡ degree_counts (named self.old.tally.shape) }
        ensures added { IfOk result (λ _. (self.new.tally ≡ with_said self.old.tally said) × (self.new.sessions.items ≡ sessions_with self.old.sessions.items said) × (self.new.watches.items ≡ watches_with self.old.watches.items said)) }
        ensures counted { IfOk result (λ _. self.new.counts.items ≡ degree_counts (named self.new.tally.shape)) }
    {
        match said {
            Said::Shape(shape) => {
                self.counts = counts_of(alloc, shape)?;
                self.tally.shape = Some(shape);
                Ok(())
            }
            Said::Session => self.open_session(alloc),
            Said::Watch(interval) => self.add_watch(interval),
            Said::Command(command) => self.add_command(command),
            Said::Commands(commands) => self.add_commands(commands),
        }
    }

    /// Reads the next content line.
    fn read(&mut self, alloc: Global, bytes: &[u8]) -> Result<(), LineFault>
        requires keeps { Keeps self.old.tally self.old.sessions.items self.old.watches.items }
        requires counted { self.old.counts.items ≡ degree_counts (named self.old.tally.shape) }
        ensures read { let due = reason_after self.old.tally bytes.now in
            MatchResult result (λ _. (due ≡ None) × Takes self.old.tally self.old.sessions.items self.old.watches.items bytes.now self.new.tally self.new.sessions.items self.new.watches.items) (λ e. IsRefusal due e) }
        ensures counted { IfOk result (λ _. self.new.counts.items ≡ degree_counts (named self.new.tally.shape)) }
    {
        let said = read_line(alloc, &self.tally, &self.counts, bytes)?;
        self.add(alloc, said)?;
        Ok(())
    }

    /// The script, where a session was opened.
    fn finish(self) -> Option<Script>
        requires { Keeps self.tally self.sessions.items self.watches.items }
        ensures { MatchOption result (nat_lt 0 self.tally.sessions ≡ false) (λ script. (nat_lt 0 self.tally.sessions ≡ true) × (script ≡ record { extent = named self.tally.shape; sessions = self.sessions.items; watches = self.watches.items })) }
    {
        match self.tally.shape {
            Some(shape) if self.tally.sessions > 0 => {
                Some(Script::of(shape, self.sessions, self.watches))
            }
            _ => None,
        }
    }
}

/// The script that the bytes spell, or why they spell none; the time is linear in their number.
pub fn read_script(alloc: Global, bytes: &[u8]) -> Result<Script, ScriptFault>
    ensures read { IfOk result (λ script. parse bytes.now ≡ Ok script) }
    ensures refused { IfErr result (λ fault. fault ≢ ScriptFault.Memory → parse bytes.now ≡ Err fault) }
{
    if bytes.len() > MOST_BYTES {
        return Err(ScriptFault::Size);
    }
    let mut reader = Reader::new(alloc);
    let mut number = 0;
    let mut from = 0;
    while let Some((end, after)) = line_at(bytes, from) {
        let line = &bytes[from..end];
        number += 1;
        from = after;
        if is_content(line) {
            if let Err(fault) = reader.read(alloc, line) {
                return Err(fault_at(number, fault));
            }
        }
    }
    match reader.finish() {
        Some(script) => Ok(script),
        None => Err(ScriptFault::Line(number + 1, Reason::End)),
    }
}
