//! The top call.
ghost use Rattle.std.specs.Prelude.{◌≡◌, ◌⊎◌, ◌+◌, ℕ, List, Some, true, false, map, string_bytes, IfOk, OnOk, OnErr, IfSome, IfErr, IsErrOf, IsNone};
ghost use Rattle.rough_io.specs.Counts.{Rose};
ghost use Rattle.rough_io.specs.Transfers.{TakesAtMost};
ghost use Rattle.command_line.specs.Wishes.{wish_of, IsInRange};
ghost use Rattle.command_line.specs.declared.wish.Wish.{Wish as TheWish};
ghost use Rattle.script_reader.specs.Script.{most_bytes, parse};
ghost use Rattle.rough_main.specs.Due.{capacity_of, is_threaded, IsAnswer, IsLegalFor};
ghost use Rattle.rough_main.specs.Calls.{Port, IsCall, write_failed, no_memory};
ghost use Rattle.rough_main.specs.Made.{IsReceived, IsMade};

use crate::elements::reply_to_elements;
use crate::reply::{Reply, reply_generated, reply_in_order, reply_on_threads, reply_to_refused};
use crate::status::Status;
use command_line::{Wish, read_words};
use rough_io::{ReceiveFault, Sink, Source, receive, send};
use session::Gate;
use std::alloc::Global;
use std::sync::Wait;
use std::thread::Threads;

/// The most bytes of a script, or of a list of elements.
const MOST_BYTES: usize = 4_194_304;

/// The bytes of a source, up to one more than a script or a list of elements may have.
fn read_source<S: Source>(alloc: Global, source: &mut S) -> Result<Vec<u8>, ReceiveFault>
    ensures received { IfOk result (λ bytes. IsReceived bytes.items (record { told = S.left source.old; faults = S.faults source.old }) (record { told = S.left source.new; faults = S.faults source.new })) }
    ensures taken { OnErr result (TakesAtMost (most_bytes + 1) (S.left source.old) (S.left source.new)) }
    ensures failed { IsErrOf result ReceiveFault.Failed → Rose (S.faults source.old) (S.faults source.new) }
    ensures memory { IsErrOf result ReceiveFault.Memory → S.faults source.new ≡ S.faults source.old }
{
    let bytes = receive(alloc, source, MOST_BYTES)?;
    let _slice = bytes.as_slice();
    Ok(bytes)
}

/// The reply to a wish that isn't for threads. The source isn't read where the wish is refused or for a generated script.
fn reply_plain<S: Source>(alloc: Global, wish: &Wish, source: &mut S) -> Result<Reply, ReceiveFault>
    requires range { IsInRange wish.now }
    requires plain { is_threaded wish.now ≡ false }
    ensures { (order : List ℕ) → IsMade wish.now order result (record { told = S.left source.old; faults = S.faults source.old }) (record { told = S.left source.new; faults = S.faults source.new }) }
{
    let made = match wish {
        Wish::Refused => reply_to_refused(alloc),
        Wish::Gen { n, capacity } => reply_generated(alloc, *n, *capacity),
        Wish::Given {
            order,
            capacity,
            form,
        } => {
            let bytes = read_source(alloc, source)?;
            reply_in_order(alloc, &bytes, *form, *capacity, order.list())
        }
        Wish::Cbh => {
            let bytes = read_source(alloc, source)?;
            reply_to_elements(alloc, &bytes)
        }
        Wish::Threads { .. } => unreachable!(),
    };
    match made {
        Ok(reply) => Ok(reply),
        Err(_memory) => Err(ReceiveFault::Memory),
    }
}

/// The reply to a script that is read from the source, and whose sessions run on threads.
fn reply_threaded<R: Threads + Wait + Sync, S: Source, G: Gate>(
    rt: &R,
    alloc: Global,
    wish: &Wish,
    source: &mut S,
    gate: &G,
) -> Result<Reply, ReceiveFault>
    requires range { IsInRange wish.now }
    requires threaded { is_threaded wish.now ≡ true }
    ensures { (order : List ℕ)
        × ((bytes : List ℕ) → S.left source.old ≡ Some bytes → OnOk result (IsLegalFor (capacity_of wish.now) order (parse bytes)))
        × IsMade wish.now order result (record { told = S.left source.old; faults = S.faults source.old }) (record { told = S.left source.new; faults = S.faults source.new }) }
{
    let Wish::Threads { capacity, form } = wish else {
        unreachable!();
    };
    let bytes = read_source(alloc, source)?;
    match reply_on_threads(rt, alloc, &bytes, *form, *capacity, gate) {
        Ok(reply) => Ok(reply),
        Err(_memory) => Err(ReceiveFault::Memory),
    }
}

/// Whether the sessions run on threads.
fn is_for_threads(wish: &Wish) -> bool
    ensures { result ≡ is_threaded wish.now }
{
    matches!(wish, Wish::Threads { .. })
}

/// Writes the reply that was made, and answers its status, or the status of what failed.
fn write_reply<O: Sink>(made: Result<Reply, ReceiveFault>, sink: &mut O) -> u8
    ensures replied { IsAnswer result ⊎ (result ≡ write_failed) → IfErr made (λ _. ⊥) }
    ensures call { (wish : TheWish) → (order : List ℕ) → (source taken : Port) → IsMade wish order made source taken →
        IsCall wish order result source taken (record { told = O.written sink.old; faults = O.faults sink.old }) (record { told = O.written sink.new; faults = O.faults sink.new }) }
{
    let reply = match made {
        Ok(reply) => reply,
        Err(ReceiveFault::Failed) => return Status::ReadFailed.code(),
        Err(ReceiveFault::Memory) => return Status::NoMemory.code(),
    };
    match send(sink, &reply.text) {
        Ok(()) => reply.status.code(),
        Err(_failed) => Status::WriteFailed.code(),
    }
}

/// Reads a script, runs it on this thread in the order that the words give, and writes its answers; or reads a list of elements, and writes
/// the logarithm of the product of their exponentials. The words are those of the command line, without the program's name. Where they ask for threads, nothing is read or written, and the answer is `None`; else it is the status that
/// `rough` tells. It always returns.
pub fn rough_plain<S: Source, O: Sink>(
    alloc: Global,
    words: &[String],
    source: &mut S,
    sink: &mut O,
) -> Option<u8>
    ensures none { IsNone result → (is_threaded (wish_of (map string_bytes words.now)) ≡ true) × (source.new ≡ source.old) × (sink.new ≡ sink.old) }
    ensures threads { is_threaded (wish_of (map string_bytes words.now)) ≡ true → IsNone result ⊎ (result ≡ Some no_memory) }
    ensures call { IfSome result (λ status. (order : List ℕ) → IsCall (wish_of (map string_bytes words.now)) order status
        (record { told = S.left source.old; faults = S.faults source.old }) (record { told = S.left source.new; faults = S.faults source.new })
        (record { told = O.written sink.old; faults = O.faults sink.old }) (record { told = O.written sink.new; faults = O.faults sink.new })) }
{
    let Ok(wish) = read_words(alloc, words) else {
        return Some(Status::NoMemory.code());
    };
    if is_for_threads(&wish) {
        return None;
    }
    Some(write_reply(reply_plain(alloc, &wish, source), sink))
}

/// Reads a script, runs it and writes its answers. The words are those of the command line, without the program's name. Where they give an
/// order, the script runs on this thread and in that order, as `rough_plain` says; so it is with the words for elements. Else its sessions run on threads, and the call returns
/// if they do: what is written is what one thread writes that takes the steps in the printed order, which is legal.
///
/// The gate is called by each session between its looks and their solutions, without the turn. The whole text is made before anything
/// is written.
///
/// | Status | Comes | Written |
/// |---|---|---|
/// | 0 | the script or the list of elements was accepted, or the script is generated | its answers, the logarithm, or the summary |
/// | 2 | exactly where the words are refused | `fault words` |
/// | 3 | exactly where the script or the list is refused, or else the order that is given | `fault size`, `fault line n reason`, `fault order place p` |
/// | 4 | only where the source's count of faults rose | nothing |
/// | 5 | only where the sink's count of faults rose | a prefix of the text of status 0, 2 or 3 |
/// | 6 | want of memory | nothing |
pub fn rough<R: Threads + Wait + Sync, S: Source, O: Sink, G: Gate>(
    rt: &R,
    alloc: Global,
    words: &[String],
    source: &mut S,
    sink: &mut O,
    gate: &G,
) -> u8
    ensures call { (order : List ℕ)
        -- the order that threads take is legal
        × (is_threaded (wish_of (map string_bytes words.now)) ≡ true → IsAnswer result ⊎ (result ≡ write_failed) → (bytes : List ℕ) → S.left source.old ≡ Some bytes →
        IsLegalFor (capacity_of (wish_of (map string_bytes words.now))) order (parse bytes))
        × IsCall (wish_of (map string_bytes words.now)) order result
        (record { told = S.left source.old; faults = S.faults source.old }) (record { told = S.left source.new; faults = S.faults source.new })
        (record { told = O.written sink.old; faults = O.faults sink.old }) (record { told = O.written sink.new; faults = O.faults sink.new }) }
{
    if let Some(status) = rough_plain(alloc, words, source, sink) {
        return status;
    }
    let Ok(wish) = read_words(alloc, words) else {
        return Status::NoMemory.code();
    };
    write_reply(reply_threaded(rt, alloc, &wish, source, gate), sink)
}
