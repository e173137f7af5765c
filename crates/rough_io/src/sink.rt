ghost use Rattle.std.specs.Prelude.{◌≡◌, ℕ, ◌^◌, ◌<◌, ◌≤◌, List, Option, length, IfOk, OnOk, OnErr};
ghost use Rattle.std.specs.Io.{WritesAtMost};
ghost use Rattle.std.specs.Io.KnownBytes.{Appends, WriteAppends};
ghost use Rattle.rough_io.specs.Counts.{IsCounted};
ghost use Rattle.rough_io.specs.Transfers.{AddsPrefix};

use crate::fault::Failed;

/// Where bytes are written to.
pub trait Sink: Drop {
    /// The bytes written, where it tells them.
    ghost written: { Self → Option (List ℕ) };

    /// How often it has failed. The count stands still at 2^64 - 1.
    ghost faults: { Self → ℕ };

    /// Adds some of the bytes, from the first on, and says how many: at least one, if there is one. After
    /// `Failed` nothing was added.
    fn write(&mut self, bytes: &[u8]) -> Result<usize, Failed>
        ensures bound { WritesAtMost result bytes.now }
        ensures some { IfOk result (λ n. 0 < length bytes.now → 0 < n) }
        ensures bytes { WriteAppends (written self.old) (written self.new) result bytes.now }
        ensures cause { IsCounted (faults self.old) (faults self.new) result }
        ensures never_falls { faults self.old ≤ faults self.new }
        ensures small { faults self.new < 2 ^ 64 };
}

/// Writes all the bytes, in as many writes as it takes, and takes no memory. After `Failed` some first
/// bytes may have been added.
pub fn send<O: Sink>(sink: &mut O, bytes: &[u8]) -> Result<(), Failed>
    ensures all { OnOk result (Appends (O.written sink.old) (O.written sink.new) bytes.now) }
    ensures prefix { OnErr result (AddsPrefix bytes.now (O.written sink.old) (O.written sink.new)) }
    ensures cause { IsCounted (O.faults sink.old) (O.faults sink.new) result }
    ensures never_falls { O.faults sink.old ≤ O.faults sink.new }
{
    let mut done = 0;
    while done < bytes.len() {
        done += sink.write(&bytes[done..])?;
    }
    Ok(())
}
