//! The sessions of a script on threads, over one book.
ghost use Rattle.std.specs.Prelude.{◌≡◌, ◌+◌, ◌<◌, ◌≤◌, [], ℕ, List, Some, None, length, All, IfOk};
ghost use Rattle.turnstile.specs.Passes.{view};
ghost use Rattle.turnstile.specs.Views.{new_pass};
ghost use Rattle.session.specs.Play.{due_outcome, illegal_place};
ghost use Rattle.session.specs.Answers.{IsOutcome, IsLogOf, AllHaveMembers};
ghost use Rattle.session.specs.Logarithms.{ExpandIn};
ghost use Rattle.session.specs.Holds.{frame_of};
ghost use Rattle.session.specs.Serving.{IsOpening};
ghost use Rattle.session.specs.Turns.{IsIdle};
ghost use Rattle.session.specs.Runs.{AreCounted};
ghost use Rattle.session.specs.Threads.{AreNew, IsReadyJob, AreReadyJobs, EachWorked, HasWorked, HaveWorked, AreJoined};

use crate::answer::{Outcome, Transcript};
use crate::basis::Basis;
use crate::held::BookInTurn;
use crate::orders::outcome_of;
use crate::serve::serve;
use book::Book;
use script_reader::Script;
use solve::Gate;
use std::alloc::Global;
use std::sync::Wait;
use std::thread;
use std::thread::Threads;
use turnstile::{Pass, Turnstile};
use words::{Capacity, Free, Ledger, Memory, Steps};

/// The pass of a session, with its counter.
#[derive(Drop)]
pub struct Job<L: Ledger> {
    pub pass: Pass<BookInTurn>,
    pub steps: Steps<L>,
}

/// A pass that comes back with its counter, and with the answers of its session where no step wanted memory.
#[derive(Drop)]
pub struct Worked<L: Ledger> {
    pub pass: Pass<BookInTurn>,
    pub steps: Steps<L>,
    pub transcript: Option<Transcript>,
}

/// What a run on threads gives.
#[derive(Drop)]
pub struct Ran<L: Ledger> {
    pub outcome: Outcome,
    /// The counters, in the order of the sessions.
    pub steps: Vec<Steps<L>>,
}

/// So many counters of 0, of which nobody reads the count.
pub fn free_counters(alloc: Global, sessions: usize) -> Result<Vec<Steps<Free>>, Memory>
    ensures number { IfOk result (λ steps. length steps.items ≡ sessions) }
    ensures zero { IfOk result (λ steps. All (λ n. n ≡ 0) steps.items) }
{
    let mut steps = Vec::new(alloc);
    for _session in 0..sessions {
        steps.push(Steps::new(Free))?;
    }
    Ok(steps)
}

/// A job for each counter: a pass whose label is the session, and this counter.
fn split_all<L: Ledger>(
    alloc: Global,
    turns: &Turnstile<BookInTurn>,
    head: &mut Pass<BookInTurn>,
    steps: Vec<Steps<L>>,
) -> Result<Vec<Job<L>>, Memory>
    requires idle { IsIdle turns.now head.old }
    requires first { (frame : List ℕ) × (view head.old ≡ new_pass 0 frame []) }
    requires few { length steps.items ≤ 16 }
    ensures idle { IsIdle turns.now head.new }
    ensures same { view head.new ≡ record (view head.old) { splits = (view head.new).splits } }
    ensures len { IfOk result (λ jobs. length jobs.items ≡ length steps.items) }
    ensures new { IfOk result (λ jobs. AreNew turns.now (view head.old).frame steps.items 1 jobs.items) }
{
    let mut jobs = Vec::new(alloc);
    for one in steps {
        let pass = turns.split(head);
        jobs.push(Job { pass, steps: one })?;
    }
    Ok(jobs)
}

/// What a session does on its pass.
fn work<R: Wait, G: Gate, L: Ledger>(
    rt: &R,
    alloc: Global,
    turns: &Turnstile<BookInTurn>,
    basis: &Basis,
    script: &Script,
    gate: &G,
    job: Job<L>,
) -> Worked<L>
    requires basis { basis.now ≡ script.now.extent }
    requires idle { IsIdle turns.now job.pass }
    requires opening { IsOpening script.now (view job.pass) }
    ensures { HasWorked turns.now (view job.pass).frame script.now (view job.pass).label job.steps result }
{
    let Job {
        mut pass,
        mut steps,
    } = job;
    let transcript = serve(rt, alloc, turns, &mut pass, basis, script, gate, &mut steps).ok();
    Worked {
        pass,
        steps,
        transcript,
    }
}

/// What all sessions do, each on a thread.
fn work_all<R: Threads + Wait + Sync, G: Gate, L: Ledger>(
    rt: &R,
    alloc: Global,
    turns: &Turnstile<BookInTurn>,
    basis: &Basis,
    script: &Script,
    gate: &G,
    jobs: Vec<Job<L>>,
) -> Result<Vec<Worked<L>>, Memory>
    requires basis { basis.now ≡ script.now.extent }
    requires ready { AreReadyJobs turns.now script.now jobs.items }
    ensures len { IfOk result (λ worked. length worked.items ≡ length jobs.items) }
    ensures worked { IfOk result (λ worked. EachWorked turns.now script.now jobs.items worked.items) }
{
    Ok(thread::map_vec(
        rt,
        jobs,
        &|job: Job<L>| -> Worked<L>
            requires basis { basis.now ≡ script.now.extent }
            requires ready { IsReadyJob turns.now script.now job }
            ensures { HasWorked turns.entry.now (view job.pass).frame script.entry.now (view job.pass).label job.steps result }
        { work(rt, alloc, turns, basis, script, gate, job) },
    )?)
}

/// Joins the passes that came back, and gives the answers of their sessions, and their counters.
fn join_all<L: Ledger>(
    alloc: Global,
    turns: &Turnstile<BookInTurn>,
    head: &mut Pass<BookInTurn>,
    script: &Script,
    worked: Vec<Worked<L>>,
) -> Result<(Vec<Transcript>, Vec<Steps<L>>), Memory>
    requires idle { IsIdle turns.now head.old }
    requires first { (view head.old).label ≡ 0 }
    requires each { (before : List ℕ) × HaveWorked turns.now (view head.old).frame script.now before 1 worked.items }
    ensures idle { IsIdle turns.now head.new }
    ensures frame { (view head.new).frame ≡ (view head.old).frame }
    ensures len { IfOk result (λ joined. (length joined.0.items ≡ length worked.items) × (length joined.1.items ≡ length worked.items)) }
    ensures joined { (before : List ℕ) → HaveWorked turns.now (view head.old).frame script.now before 1 worked.items →
        IfOk result (λ joined. AreJoined script.now (view head.new) before joined.1.items 1 joined.0.items) }
{
    let _shape = script.shape();
    let mut transcripts = Vec::new(alloc);
    let mut counters = Vec::new(alloc);
    for one in worked {
        let Worked {
            pass,
            steps,
            transcript,
        } = one;
        turns.join(head, pass);
        let Some(transcript) = transcript else {
            return Err(Memory);
        };
        transcripts.push(transcript)?;
        counters.push(steps)?;
    }
    Ok((transcripts, counters))
}

/// The outcome of a script whose sessions run on threads, each step in a hold of its own. The cache keeps so many nodes at most.
/// The gate is called between each look that has a work and its solution, without the turn.
///
/// The order of the steps is legal, and all is as on one thread that takes them in this order: the edits are those that were accepted, and
/// the coordinates, expanded by brackets, are exactly the logarithms.
///
/// Each session has a counter: the first of them is that of session 1, and so on. A counter comes back raised by exactly one unit for each
/// node that the looks of its session visit, and for each row that is exponentiated for them. After want of memory the counters are dropped.
pub fn run_all<R: Threads + Wait + Sync, G: Gate, L: Ledger>(
    rt: &R,
    alloc: Global,
    script: &Script,
    capacity: Capacity,
    gate: &G,
    steps: Vec<Steps<L>>,
) -> Result<Ran<L>, Memory>
    requires counters { length steps.items ≡ length script.now.sessions }
    ensures legal { IfOk result (λ ran. illegal_place capacity script.now ran.outcome.order.items ≡ None) }
    ensures outcome { IfOk result (λ ran. IsOutcome script.now.extent ran.outcome (due_outcome capacity script.now ran.outcome.order.items)) }
    ensures log { IfOk result (λ ran. IsLogOf script.now.extent ran.outcome) }
    ensures members { IfOk result (λ ran. AllHaveMembers script.now.extent ran.outcome) }
    ensures expands { IfOk result (λ ran. ExpandIn capacity script.now ran.outcome.order.items) }
    ensures ticks { IfOk result (λ ran. AreCounted capacity script.now ran.outcome.order.items steps.items ran.steps.items) }
{
    let sessions = script.sessions().len() as u32;
    let book = Book::new(alloc, script.shape(), capacity, sessions)?;
    let Ok((turns, mut head)) = Turnstile::start(alloc, BookInTurn::of(book)) else {
        return Err(Memory);
    };
    let jobs = split_all(alloc, &turns, &mut head, steps)?;
    let basis = Basis::build(alloc, script.shape())?;
    let worked = work_all(rt, alloc, &turns, &basis, script, gate, jobs)?;
    let (transcripts, counters) = join_all(alloc, &turns, &mut head, script, worked)?;
    let BookInTurn { book } = turns.finish(rt, head);
    let _version = book.version();
    if book.spent() {
        return Err(Memory);
    }
    let outcome = outcome_of(alloc, script, book, transcripts)?;
    Ok(Ran {
        outcome,
        steps: counters,
    })
}
