ghost use Rattle.std.specs.Prelude.{◌≡◌, ◌^◌, ◌<◌, ◌≤◌, length, IfOk, OnErr};
ghost use Rattle.std.specs.Io.{ReadsAtMost, WritesAtMost};
ghost use Rattle.std.specs.Io.KnownBytes.{ReadConsumes, WriteAppends};
ghost use Rattle.rough_io.specs.Counts.{next, IsCounted};

use crate::fault::{Failed, next_count};
use crate::sink::Sink;
use crate::source::Source;
use std::io::{Read, Write};

/// A reader of std, as standard input, with a count of its errors, of which an interrupted read is one. It
/// tells the bytes that the reader tells: standard input tells none.
#[derive(Drop)]
pub struct StdSource<R: Read + Drop> {
    input: R,
    faults: u64,
}

impl<R: Read + Drop> StdSource<R> {
    /// The reader, with no fault so far.
    pub fn new(input: R) -> StdSource<R>
        ensures { result ≡ record { input = input; faults = 0 } }
    {
        StdSource { input, faults: 0 }
    }

    /// How often a read has failed.
    pub fn faults(&self) -> u64
        ensures { result ≡ self.now.faults }
    {
        self.faults
    }
}

impl<R: Read + Drop> Source for StdSource<R> {
    ghost left = { λ s. R.remaining s.input };

    ghost faults = { λ s. s.faults };

    fn read(&mut self, buffer: &mut [u8]) -> Result<usize, Failed>
        ensures bound { ReadsAtMost result buffer.new }
        ensures bytes { ReadConsumes (R.remaining self.old.input) (R.remaining self.new.input) result buffer.new }
        ensures cause { IsCounted self.old.faults self.new.faults result }
        ensures never_falls { self.old.faults ≤ self.new.faults }
        ensures small { self.new.faults < 2 ^ 64 }
        ensures failed { OnErr result (self.new.faults ≡ next self.old.faults) }
    {
        let faults = self.faults;
        match self.input.read(buffer) {
            Ok(count) => Ok(count),
            Err(_) => {
                self.faults = next_count(faults);
                Err(Failed)
            }
        }
    }
}

/// A writer of std that keeps nothing back, as standard output, with a count of its errors and of the
/// writes that took nothing of what there was. It tells the bytes that the writer tells: standard output
/// tells none.
#[derive(Drop)]
pub struct StdSink<W: Write + Drop> {
    output: W,
    faults: u64,
}

impl<W: Write + Drop> StdSink<W> {
    /// The writer, with no fault so far.
    pub fn new(output: W) -> StdSink<W>
        ensures { result ≡ record { output = output; faults = 0 } }
    {
        StdSink { output, faults: 0 }
    }

    /// How often a write has failed.
    pub fn faults(&self) -> u64
        ensures { result ≡ self.now.faults }
    {
        self.faults
    }
}

impl<W: Write + Drop> Sink for StdSink<W> {
    ghost written = { λ s. W.contents s.output };

    ghost faults = { λ s. s.faults };

    fn write(&mut self, bytes: &[u8]) -> Result<usize, Failed>
        ensures bound { WritesAtMost result bytes.now }
        ensures some { IfOk result (λ n. 0 < length bytes.now → 0 < n) }
        ensures bytes { WriteAppends (W.contents self.old.output) (W.contents self.new.output) result bytes.now }
        ensures cause { IsCounted self.old.faults self.new.faults result }
        ensures never_falls { self.old.faults ≤ self.new.faults }
        ensures small { self.new.faults < 2 ^ 64 }
        ensures failed { OnErr result (self.new.faults ≡ next self.old.faults) }
    {
        let faults = self.faults;
        match self.output.write(bytes) {
            Ok(count) if count > 0 || bytes.is_empty() => Ok(count),
            _ => {
                self.faults = next_count(faults);
                Err(Failed)
            }
        }
    }
}
