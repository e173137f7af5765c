ghost use Rattle.std.specs.Prelude.{◌≡◌, ◌^◌, ◌<◌, ◌≤◌, ◌↔◌, ◌++◌, Some, length, take, drop, min, IsErr, IfOk, OnErr, Contains};
ghost use Rattle.std.specs.Io.{ReadsAtMost};
ghost use Rattle.std.specs.Io.KnownBytes.{ReadConsumes};
ghost use Rattle.rough_io.specs.Counts.{next, IsCounted};
ghost use Rattle.rough_io.specs.Memory.{rest, given, after_read, after_failed_read};

use crate::fault::{Failed, next_count};
use crate::source::Source;
use std::marker::Model;

/// A source over given bytes. A read gives at most a piece, and fails where its number, from 1, is listed.
#[derive(Drop)]
pub struct MemorySource {
    bytes: Vec<u8>,
    taken: usize,
    piece: usize,
    fails: Vec<u64>,
    calls: u64,
    faults: u64,
}

impl Model for MemorySource {
    ghost use Rattle.std.specs.Prelude.{◌≤◌, vec_len};
    ghost use Rattle.rough_io.specs.Memory.{SourceState};

    ghost Value = { SourceState };

    ghost view = { λ s. record { bytes = s.bytes.items; taken = s.taken; piece = s.piece; fails = s.fails.items; calls = s.calls; faults = s.faults } };

    ghost invariant = { λ s. (s.taken ≤ vec_len s.bytes) × (1 ≤ s.piece) };
}

/// Copies as many bytes as both have, and at most `most`, and says how many.
fn copy_front(from: &[u8], to: &mut [u8], most: usize) -> usize
    ensures count { result ≡ min most (min (length to.old) (length from.now)) }
    ensures copied { to.new ≡ take result from.now ++ drop result to.old }
    ensures front { take result to.new ≡ take result from.now }
{
    let count = most.min(to.len().min(from.len()));
    to[..count].copy_from_slice(&from[..count]);
    count
}

impl MemorySource {
    /// A source of these bytes, none of them taken, with no call and no fault so far.
    pub fn new(bytes: Vec<u8>, piece: usize, fails: Vec<u64>) -> MemorySource
        requires { 1 ≤ piece }
        ensures { result ≡ record { bytes = bytes.items; taken = 0; piece = piece; fails = fails.items; calls = 0; faults = 0 } }
    {
        MemorySource {
            bytes,
            taken: 0,
            piece,
            fails,
            calls: 0,
            faults: 0,
        }
    }

    /// How often it has failed.
    pub fn faults(&self) -> u64
        ensures { result ≡ self.now.faults }
    {
        self.faults
    }
}

impl Source for MemorySource {
    ghost left = { λ s. Some (rest s) };

    ghost faults = { λ s. s.faults };

    fn read(&mut self, buffer: &mut [u8]) -> Result<usize, Failed>
        ensures bound { ReadsAtMost result buffer.new }
        ensures bytes { ReadConsumes (Some (rest self.old)) (Some (rest self.new)) result buffer.new }
        ensures cause { IsCounted self.old.faults self.new.faults result }
        ensures never_falls { self.old.faults ≤ self.new.faults }
        ensures small { self.new.faults < 2 ^ 64 }
        ensures fails { IsErr result ↔ Contains self.old.fails (next self.old.calls) }
        ensures count { IfOk result (λ n. n ≡ given self.old (length buffer.old)) }
        ensures given { IfOk result (λ n. buffer.new ≡ take n (rest self.old) ++ drop n buffer.old) }
        ensures after { IfOk result (λ n. self.new ≡ after_read self.old n) }
        ensures failed { OnErr result (self.new ≡ after_failed_read self.old) }
    {
        self.calls = next_count(self.calls);
        if self.fails.contains(&self.calls) {
            self.faults = next_count(self.faults);
            return Err(Failed);
        }
        let count = copy_front(&self.bytes[self.taken..], buffer, self.piece);
        self.taken += count;
        Ok(count)
    }
}
