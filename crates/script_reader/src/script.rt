ghost use Rattle.std.specs.Prelude.{◌≡◌};
ghost use Rattle.script_reader.specs.Script.{IsScript};

use crate::command::Commands;
use std::marker::Model;
use watches::Interval;
use words::Shape;

/// A script: a shape, the commands of 1 to 16 sessions, at most 65,536 in all, and at most 64 watched intervals.
/// Each edit is one of the shape, each query keeps `from <= to <= 2^32` and `r <= 16`, and each watched interval `from <= to <= 2^32`.
#[derive(Drop)]
pub struct Script {
    shape: Shape,
    sessions: Vec<Commands>,
    watches: Vec<Interval>,
}

impl Model for Script {
    ghost use Rattle.script_reader.specs.Script.{ScriptValue, IsScript};

    ghost Value = { ScriptValue };

    ghost view = { λ s. record { extent = s.shape; sessions = s.sessions.items; watches = s.watches.items } };

    ghost invariant = { λ s. IsScript (record { extent = s.shape; sessions = s.sessions.items; watches = s.watches.items }) };
}

impl Script {
    /// The script of this shape, these sessions and these watched intervals.
    pub fn of(shape: Shape, sessions: Vec<Commands>, watches: Vec<Interval>) -> Script
        requires { IsScript (record { extent = shape; sessions = sessions.items; watches = watches.items }) }
        ensures { result ≡ record { extent = shape; sessions = sessions.items; watches = watches.items } }
    {
        Script {
            shape,
            sessions,
            watches,
        }
    }

    /// The shape.
    pub fn shape(&self) -> Shape
        ensures value { result ≡ self.now.extent }
        ensures script { IsScript self.now }
    {
        self.shape
    }

    /// The commands of each session, in the order of the sessions.
    pub fn sessions(&self) -> &[Commands]
        ensures value { result.now ≡ self.now.sessions }
        ensures script { IsScript self.now }
    {
        &self.sessions
    }

    /// The watched intervals, in the order of their lines.
    pub fn watches(&self) -> &[Interval]
        ensures value { result.now ≡ self.now.watches }
        ensures script { IsScript self.now }
    {
        &self.watches
    }
}
