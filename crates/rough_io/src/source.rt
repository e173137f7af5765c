ghost use Rattle.std.specs.Prelude.{◌≡◌, ℕ, ◌+◌, ◌^◌, ◌<◌, ◌≤◌, List, Option, length, vec_len, IfOk, OnOk, OnErr, IsErrOf};
ghost use Rattle.std.specs.Io.{ReadsAtMost};
ghost use Rattle.std.specs.Io.KnownBytes.{Consumes, IsAtEnd, ReadConsumes};
ghost use Rattle.rough_io.specs.Counts.{Rose, IsCounted};
ghost use Rattle.rough_io.specs.Transfers.{TakesAtMost};

use crate::fault::Failed;
use std::alloc::{AllocError, Global};
use thiserror::Error;

/// Where bytes are read from.
pub trait Source: Drop {
    /// The bytes left, where it tells them.
    ghost left: { Self → Option (List ℕ) };

    /// How often it has failed. The count stands still at 2^64 - 1.
    ghost faults: { Self → ℕ };

    /// Gives the next bytes into the front of the buffer, and says how many. For a buffer that isn't
    /// empty, 0 is the end of the input. After `Failed` nothing was taken.
    fn read(&mut self, buffer: &mut [u8]) -> Result<usize, Failed>
        ensures bound { ReadsAtMost result buffer.new }
        ensures bytes { ReadConsumes (left self.old) (left self.new) result buffer.new }
        ensures cause { IsCounted (faults self.old) (faults self.new) result }
        ensures never_falls { faults self.old ≤ faults self.new }
        ensures small { faults self.new < 2 ^ 64 };
}

/// Why the bytes of a source weren't received.
#[derive(Debug, Drop, Error)]
pub enum ReceiveFault {
    #[error("the source failed")]
    Failed,
    #[error("out of memory")]
    Memory,
}

impl From<Failed> for ReceiveFault {
    ghost use Rattle.std.specs.Prelude.{◌≡◌};
    ghost use Rattle.rough_io.specs.declared.source.ReceiveFault.TheVariants.{Failed as failed};

    ghost from_gives = { λ _ e. e ≡ failed };

    fn from(_failed: Failed) -> ReceiveFault {
        ReceiveFault::Failed
    }
}

impl From<AllocError> for ReceiveFault {
    ghost use Rattle.std.specs.Prelude.{◌≡◌};
    ghost use Rattle.rough_io.specs.declared.source.ReceiveFault.TheVariants.{Memory};

    ghost from_gives = { λ _ e. e ≡ Memory };

    fn from(_error: AllocError) -> ReceiveFault {
        ReceiveFault::Memory
    }
}

/// Reads once, and adds what was read. It says how many bytes that were.
fn receive_piece<S: Source>(
    source: &mut S,
    piece: &mut [u8],
    bytes: &mut Vec<u8>,
) -> Result<usize, ReceiveFault>
    ensures items { IfOk result (λ n. vec_len bytes.new ≡ vec_len bytes.old + n) }
    ensures bound { IfOk result (λ n. n ≤ length piece.old) }
    ensures all { (start : Option (List ℕ)) → Consumes start (S.left source.old) bytes.old.items → OnOk result (Consumes start (S.left source.new) bytes.new.items) }
    ensures end { IfOk result (λ n. n ≡ 0 → 0 < length piece.old → IsAtEnd (S.left source.new)) }
    ensures taken { OnErr result (TakesAtMost (length piece.old) (S.left source.old) (S.left source.new)) }
    ensures failed { IsErrOf result ReceiveFault.Failed → Rose (S.faults source.old) (S.faults source.new) }
    ensures memory { IsErrOf result ReceiveFault.Memory → S.faults source.new ≡ S.faults source.old }
    ensures ok { OnOk result (S.faults source.new ≡ S.faults source.old) }
    ensures never_falls { S.faults source.old ≤ S.faults source.new }
{
    let count = source.read(piece)?;
    bytes.extend_from_slice(&piece[..count])?;
    Ok(count)
}

/// Reads until the end, or until one byte more than the limit is read, so that the caller sees whether
/// the input is longer. After an error some first bytes may have been taken, and no others.
pub fn receive<S: Source>(
    alloc: Global,
    source: &mut S,
    limit: usize,
) -> Result<Vec<u8>, ReceiveFault>
    requires { limit < usize.MAX }
    ensures bytes { IfOk result (λ v. Consumes (S.left source.old) (S.left source.new) v.items) }
    ensures bound { IfOk result (λ v. vec_len v ≤ limit + 1) }
    ensures end { IfOk result (λ v. vec_len v ≤ limit → IsAtEnd (S.left source.new)) }
    ensures taken { OnErr result (TakesAtMost (limit + 1) (S.left source.old) (S.left source.new)) }
    ensures failed { IsErrOf result ReceiveFault.Failed → Rose (S.faults source.old) (S.faults source.new) }
    ensures memory { IsErrOf result ReceiveFault.Memory → S.faults source.new ≡ S.faults source.old }
    ensures ok { OnOk result (S.faults source.new ≡ S.faults source.old) }
    ensures never_falls { S.faults source.old ≤ S.faults source.new }
{
    let mut bytes = Vec::new(alloc);
    let mut buffer = [0u8; 65536];
    while bytes.len() <= limit {
        let missing = (limit - bytes.len() + 1).min(buffer.len());
        if receive_piece(source, &mut buffer[..missing], &mut bytes)? == 0 {
            break;
        }
    }
    Ok(bytes)
}
