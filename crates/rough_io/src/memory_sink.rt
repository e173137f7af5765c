ghost use Rattle.std.specs.Prelude.{◌≡◌, ◌^◌, ◌<◌, ◌≤◌, ◌↔◌, [], Some, length, IsErr, IfOk, OnErr};
ghost use Rattle.std.specs.Io.{WritesAtMost};
ghost use Rattle.std.specs.Io.KnownBytes.{WriteAppends};
ghost use Rattle.rough_io.specs.Counts.{IsCounted};
ghost use Rattle.rough_io.specs.Memory.{WriteFails, accepted, after_write, after_failed_write};

use crate::fault::{Failed, next_count};
use crate::sink::Sink;
use std::alloc::Global;
use std::marker::Model;
use words::Memory;

/// A sink in memory with room for so many bytes. A write takes at most a piece, and fails where its number,
/// from 1, is listed, or the room is used up. Writes take no memory.
#[derive(Drop)]
pub struct MemorySink {
    written: Vec<u8>,
    room: usize,
    piece: usize,
    fails: Vec<u64>,
    calls: u64,
    faults: u64,
}

impl Model for MemorySink {
    ghost use Rattle.std.specs.Prelude.{◌≤◌, vec_len, vec_capacity};
    ghost use Rattle.rough_io.specs.Memory.{SinkState};

    ghost Value = { SinkState };

    ghost view = { λ s. record { written = s.written.items; room = s.room; piece = s.piece; fails = s.fails.items; calls = s.calls; faults = s.faults } };

    ghost invariant = { λ s. (vec_len s.written ≤ s.room) × (s.room ≤ vec_capacity s.written) × (1 ≤ s.piece) };
}

impl MemorySink {
    /// An empty sink, with no call and no fault so far. Takes the memory for all of the room.
    pub fn new(
        alloc: Global,
        room: usize,
        piece: usize,
        fails: Vec<u64>,
    ) -> Result<MemorySink, Memory>
        requires { 1 ≤ piece }
        ensures { IfOk result (λ s. s ≡ record { written = []; room = room; piece = piece; fails = fails.items; calls = 0; faults = 0 }) }
    {
        Ok(MemorySink {
            written: Vec::with_capacity(alloc, room)?,
            room,
            piece,
            fails,
            calls: 0,
            faults: 0,
        })
    }

    /// The bytes written.
    pub fn written(&self) -> &[u8]
        ensures { result.now ≡ self.now.written }
    {
        &self.written
    }

    /// How often it has failed.
    pub fn faults(&self) -> u64
        ensures { result ≡ self.now.faults }
    {
        self.faults
    }
}

impl Sink for MemorySink {
    ghost written = { λ s. Some s.written };

    ghost faults = { λ s. s.faults };

    fn write(&mut self, bytes: &[u8]) -> Result<usize, Failed>
        ensures bound { WritesAtMost result bytes.now }
        ensures some { IfOk result (λ n. 0 < length bytes.now → 0 < n) }
        ensures bytes { WriteAppends (Some self.old.written) (Some self.new.written) result bytes.now }
        ensures cause { IsCounted self.old.faults self.new.faults result }
        ensures never_falls { self.old.faults ≤ self.new.faults }
        ensures small { self.new.faults < 2 ^ 64 }
        ensures fails { IsErr result ↔ WriteFails self.old bytes.now }
        ensures count { IfOk result (λ n. n ≡ accepted self.old bytes.now) }
        ensures after { IfOk result (λ n. self.new ≡ after_write self.old bytes.now n) }
        ensures failed { OnErr result (self.new ≡ after_failed_write self.old) }
    {
        self.calls = next_count(self.calls);
        let left = self.room - self.written.len();
        if self.fails.contains(&self.calls) || (left == 0 && !bytes.is_empty()) {
            self.faults = next_count(self.faults);
            return Err(Failed);
        }
        let count = self.piece.min(bytes.len().min(left));
        self.written.extend_from_slice(&bytes[..count]).unwrap();
        Ok(count)
    }
}
