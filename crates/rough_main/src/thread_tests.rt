//! Tests of sessions on threads.
use crate::{Gate, Through, rough};
use rough_io::{MemorySink, MemorySource};
use std::alloc::Global;
use std::sync::Wait;
use std::sync::atomic::{AtomicBool, Ordering};
use std::test::Fail;
use std::thread;
use std::thread::Threads;

/// The status of a run with these words, and what it writes.
pub(crate) fn answers_to<R: Threads + Wait + Sync, G: Gate>(
    rt: &R,
    alloc: Global,
    words: &[&str],
    script: &str,
    gate: &G,
) -> Result<(u8, String), Fail> {
    let bytes = Vec::from_slice(alloc, script.as_bytes())?;
    let mut source = MemorySource::new(bytes, 4096, Vec::new(alloc));
    let mut sink = MemorySink::new(alloc, 4_194_304, 4096, Vec::new(alloc))?;
    let mut line = Vec::new(alloc);
    for word in words {
        line.push(String::from_str(alloc, word)?)?;
    }
    let status = rough(rt, alloc, &line, &mut source, &mut sink, gate);
    let written = String::from_utf8(Vec::from_slice(alloc, sink.written())?)?;
    Ok((status, written))
}

/// The entry of row i at a letter that steps by this much.
fn entry(i: u64, step: u64) -> i64 {
    (i.wrapping_mul(step) % 2001) as i64 - 1000
}

/// The commands of one of three sessions, which share 2,000 rows and 300 queries; each fifth row has areas.
fn write_session(alloc: Global, text: &mut String, session: u64) -> Result<(), Fail> {
    text.push_str(format!(in alloc; "session {session}\n")?.as_str())?;
    for i in 0..2000u64 {
        if i % 3 + 1 == session {
            let (x, y, z) = (entry(i, 37), entry(i, 91), entry(i, 53));
            text.push_str(format!(in alloc; "append p{i} {i} {x} {y} {z}")?.as_str())?;
            if i % 5 == 0 {
                text.push_str(format!(in alloc; " {z} {x} {y}")?.as_str())?;
            }
            text.push_str("\n")?;
        }
    }
    for j in 0..300u64 {
        if j % 3 + 1 == session {
            let kind = if j % 2 == 0 { "sig" } else { "log" };
            let end = 6 * (j + 1);
            text.push_str(format!(in alloc; "{kind} 0 {end} 0\n")?.as_str())?;
        }
    }
    Ok(())
}

/// The order that an answer prints.
pub(crate) fn printed_order(answers: &str) -> Option<&str> {
    answers.lines().find_map(|line| line.strip_prefix("order "))
}

#[test]
fn threads_are_as_one_thread_in_their_order(rt: HostRuntime) -> Result<(), Fail> {
    let mut script = String::from_str(rt.alloc(), "shape 3 4\nwatch 0 1000 0\n")?;
    for session in 1..=3u64 {
        write_session(rt.alloc(), &mut script, session)?;
    }
    let (status, answers) = answers_to(&rt, rt.alloc(), &[], &script, &Through)?;
    assert_eq!(rt; status, 0);
    assert!(rt; answers.contains("\nversions 2000\nwatch 1 versions "));
    for refusal in ["name-taken", "no-row", "no-version", "growth", "overflow"] {
        assert!(rt; !answers.contains(refusal));
    }
    let order = printed_order(&answers).unwrap_or("");
    let (status, again) = answers_to(&rt, rt.alloc(), &["--order", order], &script, &Through)?;
    assert_eq!(rt; status, 0);
    assert!(rt; again == answers);
    Ok(())
}

/// A gate at which each of two sessions waits for the other, for a while.
#[derive(Drop)]
struct Meeting {
    there: (AtomicBool, AtomicBool),
    met: (AtomicBool, AtomicBool),
}

impl Meeting {
    fn new() -> Meeting {
        Meeting {
            there: (AtomicBool::new(false), AtomicBool::new(false)),
            met: (AtomicBool::new(false), AtomicBool::new(false)),
        }
    }
}

/// Whether the flag is raised within 10,000,000 turns.
fn is_raised(flag: &AtomicBool) -> bool {
    for _turn in 0..10_000_000u64 {
        if flag.load(Ordering::SeqCst) {
            return true;
        }
        thread::yield_now();
    }
    false
}

impl Gate for Meeting {
    fn between(&self, session: u32) {
        let (mine, other, met) = if session == 1 {
            (&self.there.0, &self.there.1, &self.met.0)
        } else {
            (&self.there.1, &self.there.0, &self.met.1)
        };
        mine.store(true, Ordering::SeqCst);
        if is_raised(other) {
            met.store(true, Ordering::SeqCst);
        }
    }
}

#[test]
fn two_sessions_solve_at_once(rt: HostRuntime) -> Result<(), Fail> {
    let script = "shape 1 1\n\
session 1\n\
append a 0 1\n\
sig 0 1 0\n\
session 2\n\
append b 1 1\n\
sig 1 2 0\n";
    let gate = Meeting::new();
    let (status, _answers) = answers_to(&rt, rt.alloc(), &[], script, &gate)?;
    assert_eq!(rt; status, 0);
    assert!(rt; gate.met.0.load(Ordering::SeqCst) && gate.met.1.load(Ordering::SeqCst));
    Ok(())
}
