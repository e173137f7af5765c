//! The steps of sessions in a given order, or in turns.
ghost use Rattle.std.specs.Prelude.{◌≡◌, ◌+◌, ◌≤◌, ℕ, None, Err, IfOk, OnOk, length, drop};
ghost use Rattle.std.specs.List.{find};
ghost use Rattle.definitions.specs.Words.{up_to};
ghost use Rattle.session.specs.Play.{has_next as has_request, due_outcome, illegal_place, round_order, opening_run, next_turn as due_turn, most_steps as most_due_steps};
ghost use Rattle.session.specs.Answers.{IsOutcome, IsLogOf, AllHaveMembers};
ghost use Rattle.session.specs.Logarithms.{ExpandIn};
ghost use Rattle.session.specs.Runs.{IsRun, IsTold, order_of, run_of, units_in};

use crate::answer::{Outcome, Transcript};
use crate::basis::Basis;
use crate::run::{Run, has_next, opening, step};
use book::Book;
use script_reader::Script;
use std::alloc::Global;
use words::{Capacity, Ledger, Memory, Steps};

/// Why there is no outcome of an order.
#[derive(Debug, Clone, Copy, PartialEq, Eq, Drop)]
pub enum ReplayFault {
    /// At this place, counted from 1, the order names a session that has nothing to do, or it ends where a session has.
    Order(u64),
    /// Want of memory.
    Memory,
}

impl From<Memory> for ReplayFault {
    ghost use Rattle.std.specs.Prelude.{◌≡◌};
    ghost use Rattle.session.specs.declared.orders.ReplayFault.TheVariants.{Memory as NoMemory};

    ghost from_gives = { λ _ fault. fault ≡ NoMemory };

    fn from(_memory: Memory) -> ReplayFault {
        ReplayFault::Memory
    }
}

/// What a run gives whose steps are in this book, and whose answers are these.
pub fn outcome_of(
    alloc: Global,
    script: &Script,
    book: Book,
    transcripts: Vec<Transcript>,
) -> Result<Outcome, Memory>
    requires { IsTold script.now book transcripts.items }
    ensures outcome { IfOk result (λ outcome. IsOutcome script.now.extent outcome (due_outcome book.capacity script.now (order_of book))) }
    ensures order { IfOk result (λ outcome. outcome.order.items ≡ order_of book) }
    ensures log { IfOk result (IsLogOf script.now.extent) }
    ensures members { IfOk result (AllHaveMembers script.now.extent) }
{
    let _shape = script.shape();
    let mut order = Vec::new(alloc);
    for taken in book.history() {
        order.push(taken.session())?;
    }
    let edits = book.into_edits();
    Ok(Outcome {
        transcripts,
        order,
        edits,
    })
}

/// What a run gives after its last step.
fn outcome_of_run(alloc: Global, script: &Script, run: Run) -> Result<Outcome, Memory>
    requires { IsRun script.now run }
    ensures outcome { IfOk result (λ outcome. IsOutcome script.now.extent outcome (due_outcome run.book.capacity script.now (order_of run.book))) }
    ensures log { IfOk result (IsLogOf script.now.extent) }
    ensures members { IfOk result (AllHaveMembers script.now.extent) }
{
    let Run {
        book,
        transcripts,
        ..
    } = run;
    outcome_of(alloc, script, book, transcripts)
}

/// The first session after the one and up to the other that has anything to do.
fn first_with(run: &Run, script: &Script, after: u32, to: u32) -> Option<u32>
    requires run { IsRun script.now run.now }
    requires order { after ≤ to }
    ensures { result ≡ find (has_request script.now.extent (run_of script.now run.now.book)) (drop after (up_to to)) }
{
    for before in after..to {
        if has_next(run, script, before + 1) {
            return Some(before + 1);
        }
    }
    None
}

/// The first session after this one, or else from the first on, that has anything to do.
fn next_turn(run: &Run, script: &Script, last: u32) -> Option<u32>
    requires run { IsRun script.now run.now }
    requires last { last ≤ length script.now.sessions }
    ensures { result ≡ due_turn script.now.extent last (run_of script.now run.now.book) }
{
    let later = first_with(run, script, last, script.sessions().len() as u32);
    if later.is_some() {
        return later;
    }
    first_with(run, script, 0, last)
}

/// The outcome of a script whose sessions take their steps in this order, refused exactly as `ReplayFault` says. Its edits are those that
/// were accepted, and its coordinates, expanded by brackets, are exactly the logarithms. The cache keeps so many nodes at most. Takes one
/// unit for each visited node and each row that is exponentiated, and never more than the whole order has.
pub fn replay<L: Ledger>(
    alloc: Global,
    script: &Script,
    capacity: Capacity,
    order: &[u32],
    steps: &mut Steps<L>,
) -> Result<Outcome, ReplayFault>
    ensures legal { OnOk result (illegal_place capacity script.now order.now ≡ None) }
    ensures outcome { IfOk result (λ outcome. IsOutcome script.now.extent outcome (due_outcome capacity script.now order.now)) }
    ensures log { IfOk result (IsLogOf script.now.extent) }
    ensures members { IfOk result (AllHaveMembers script.now.extent) }
    ensures expands { OnOk result (ExpandIn capacity script.now order.now) }
    ensures illegal { (place : ℕ) → result ≡ Err (ReplayFault.Order place) → illegal_place capacity script.now order.now ≡ Some place }
    ensures ticks { OnOk result (steps.new ≡ steps.old + units_in capacity script.now.extent order.now (opening_run script.now)) }
    ensures at_most { (steps.old ≤ steps.new) × (steps.new ≤ steps.old + units_in capacity script.now.extent order.now (opening_run script.now)) }
{
    let basis = Basis::build(alloc, script.shape())?;
    let mut run = opening(alloc, script, capacity)?;
    for (before, session) in order.iter().enumerate() {
        if !has_next(&run, script, *session) {
            return Err(ReplayFault::Order(before as u64 + 1));
        }
        step(alloc, &basis, script, &mut run, *session, steps)?;
    }
    if next_turn(&run, script, 0).is_some() {
        return Err(ReplayFault::Order(order.len() as u64 + 1));
    }
    Ok(outcome_of_run(alloc, script, run)?)
}

/// How many steps there are at most: each command is one, and each look may be followed by a settle.
fn most_steps(script: &Script) -> u64
    ensures { result ≡ most_due_steps script.now }
{
    let mut commands: u64 = 0;
    for session in script.sessions() {
        commands += session.list().len() as u64;
    }
    2 * commands
}

/// The outcome of a script whose sessions take one step each in turn, as `replay` gives it. The cache keeps so many nodes at most.
/// Takes one unit for each visited node and each row that is exponentiated, and never more than the whole round has.
pub fn replay_round<L: Ledger>(
    alloc: Global,
    script: &Script,
    capacity: Capacity,
    steps: &mut Steps<L>,
) -> Result<Outcome, Memory>
    ensures outcome { IfOk result (λ outcome. IsOutcome script.now.extent outcome (due_outcome capacity script.now (round_order capacity script.now))) }
    ensures log { IfOk result (IsLogOf script.now.extent) }
    ensures members { IfOk result (AllHaveMembers script.now.extent) }
    ensures expands { OnOk result (ExpandIn capacity script.now (round_order capacity script.now)) }
    ensures ticks { OnOk result (steps.new ≡ steps.old + units_in capacity script.now.extent (round_order capacity script.now) (opening_run script.now)) }
    ensures at_most { (steps.old ≤ steps.new) × (steps.new ≤ steps.old + units_in capacity script.now.extent (round_order capacity script.now) (opening_run script.now)) }
{
    let basis = Basis::build(alloc, script.shape())?;
    let mut run = opening(alloc, script, capacity)?;
    let mut last = 0;
    for _step in 0..most_steps(script) {
        let Some(session) = next_turn(&run, script, last) else {
            break;
        };
        step(alloc, &basis, script, &mut run, session, steps)?;
        last = session;
    }
    outcome_of_run(alloc, script, run)
}
