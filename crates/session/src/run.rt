//! A run of a script: one step after another over one book.
ghost use Rattle.std.specs.Prelude.{◌≡◌, ◌+◌, ◌-◌, ◌<◌, ◌≤◌, ◌^◌, ◌++◌, ◌∷◌, [], ℕ, List, Some, length, slice_index_or, sum_by, IfOk, OnOk};
ghost use Rattle.definitions.specs.Rows.{RowValue, moves_of};
ghost use Rattle.definitions.specs.Signature.{weight};
ghost use Rattle.script_reader.specs.Script.{IsAsk};
ghost use Rattle.versions.specs.Versions.{IsEdit, edit_reply};
ghost use Rattle.solve.specs.Plans.{PlansStand, all_missed, exps_of};
ghost use Rattle.solve.specs.Solutions.{AreSolved};
ghost use Rattle.book.specs.declared.step.Step.{Step as TheStep};
ghost use Rattle.book.specs.declared.step.Step.TheVariants.{Looked};
ghost use Rattle.book.specs.declared.query.Query.{Query as TheQuery};
ghost use Rattle.book.specs.declared.step.LookReply.{LookReply as TheReply};
ghost use Rattle.book.specs.Play.{Editing, Looking, Settling, pending_of};
ghost use Rattle.book.specs.Books.{IsReady, IsFree, IsSettledBy, IsSession, state_of, log_of, with_request};
ghost use Rattle.session.specs.Play.{has_next as has_request, next_request, query_for as due_query, Edited, looked, valued};
ghost use Rattle.session.specs.Answers.{Shows, HasMembers, IsAllowed};
ghost use Rattle.session.specs.Runs.{IsRun, HasNext, IsAfter, IsSolvedFor, HasPlaces, IsLastLook, IsPendingSolved, order_of, run_of, units_of};

use crate::answer::{Answer, Transcript};
use crate::asked::{Asked, asked_by};
use crate::basis::Basis;
use crate::look::{answer_look, look_at};
use crate::query::query_for;
use book::Book;
use script_reader::{Command, Script};
use solve::{Solved, Through};
use std::alloc::Global;
use versions::Edit;
use words::{Capacity, Ledger, Memory, Steps};

/// The book, and for each session how many of its commands were taken, the solution of its pending look, and its answers.
#[derive(Drop)]
pub struct Run {
    pub(crate) book: Book,
    pub(crate) taken: Vec<usize>,
    pub(crate) solved: Vec<Option<Solved>>,
    pub(crate) transcripts: Vec<Transcript>,
}

/// A run of a script before its first step.
pub fn opening(alloc: Global, script: &Script, capacity: Capacity) -> Result<Run, Memory>
    ensures run { IfOk result (IsRun script.now) }
    ensures capacity { IfOk result (λ run. run.book.capacity ≡ capacity) }
    ensures order { IfOk result (λ run. order_of run.book ≡ []) }
{
    let sessions = script.sessions().len();
    let book = Book::new(alloc, script.shape(), capacity, sessions as u32)?;
    let mut taken = Vec::new(alloc);
    let mut solved = Vec::new(alloc);
    let mut transcripts = Vec::new(alloc);
    for _session in 0..sessions {
        taken.push(0)?;
        solved.push(None)?;
        transcripts.push(Transcript::new(alloc))?;
    }
    Ok(Run {
        book,
        taken,
        solved,
        transcripts,
    })
}

/// Whether there is such a session, and it has anything to do.
pub fn has_next(run: &Run, script: &Script, session: u32) -> bool
    requires { IsRun script.now run.now }
    ensures { result ≡ has_request script.now.extent (run_of script.now run.now.book) session }
{
    let sessions = script.sessions();
    if session < 1 || session as usize > sessions.len() {
        return false;
    }
    let at = session as usize - 1;
    run.book.pending(session) || run.taken[at] < sessions[at].list().len()
}

/// Settles the session's pending look.
fn settle_step(run: &mut Run, session: u32) -> Result<(), Memory>
    requires ready { IsReady run.old.book session }
    requires places { HasPlaces session run.old }
    requires settled { IsPendingSolved session run.old }
    ensures { OnOk result (IsAfter run.old.book.extent session (Settling session) [] run.old run.new) }
{
    let at = session as usize - 1;
    let Some(solved) = &run.solved[at] else {
        unreachable!();
    };
    run.book.settle(session, solved)?;
    run.solved[at] = None;
    Ok(())
}

/// Makes an edit, and answers it.
fn edit_step(alloc: Global, run: &mut Run, session: u32, edit: &Edit) -> Result<(), Memory>
    requires ready { IsReady run.old.book session }
    requires free { IsFree run.old.book session }
    requires places { HasPlaces session run.old }
    requires edit { IsEdit run.old.book.extent edit.now }
    requires few { slice_index_or run.old.taken.items (session - 1) 0 < 2 ^ 32 }
    ensures { OnOk result (IsAfter run.old.book.extent session (Editing session edit.now) (Edited (edit_reply (state_of run.old.book).edits edit.now) ∷ []) run.old run.new) }
{
    let at = session as usize - 1;
    let reply = run.book.edit(alloc, session, edit)?;
    run.transcripts[at].push(Answer::Edit(reply))?;
    run.taken[at] += 1;
    Ok(())
}

/// Looks at a version. Gives the answer, and the solution where the look is pending.
fn answer_ask<L: Ledger>(
    alloc: Global,
    basis: &Basis,
    book: &mut Book,
    session: u32,
    asked: &Asked,
    steps: &mut Steps<L>,
) -> Result<(Answer, Option<Solved>), Memory>
    requires basis { basis.now ≡ book.old.extent }
    requires ready { IsReady book.old session }
    requires free { IsFree book.old session }
    requires ask { IsAsk asked.now.ask }
    ensures book { OnOk result (book.new ≡ with_request (Looking session (due_query basis.now asked.now)) book.old) }
    ensures shows { IfOk result (λ r. Shows basis.now r.0 (looked basis.now (state_of book.old) asked.now.wanted (due_query basis.now asked.now))) }
    ensures members { IfOk result (λ r. HasMembers basis.now r.0) }
    ensures solved { IfOk result (λ r. IsSolvedFor (log_of book.new) (pending_of session (state_of book.new).pending) r.1) }
    ensures ticks { OnOk result (steps.new ≡ steps.old + units_of (state_of book.old) (Some (Looking session (due_query basis.now asked.now)))) }
    ensures at_most { (steps.old ≤ steps.new) × (steps.new ≤ steps.old + units_of (state_of book.old) (Some (Looking session (due_query basis.now asked.now)))) }
{
    let q = query_for(alloc, basis, asked)?;
    let looked = look_at(alloc, book, session, q, steps)?;
    answer_look(alloc, basis, session, asked, &looked, &Through, steps)
}

/// Looks at a version, and answers with the value of its rows.
fn look_step<L: Ledger>(
    alloc: Global,
    basis: &Basis,
    run: &mut Run,
    session: u32,
    asked: &Asked,
    steps: &mut Steps<L>,
) -> Result<(), Memory>
    requires basis { basis.now ≡ run.old.book.extent }
    requires ready { IsReady run.old.book session }
    requires free { IsFree run.old.book session }
    requires places { HasPlaces session run.old }
    requires ask { IsAsk asked.now.ask }
    requires few { slice_index_or run.old.taken.items (session - 1) 0 < 2 ^ 32 }
    ensures after { OnOk result (IsAfter basis.now session (Looking session (due_query basis.now asked.now)) (looked basis.now (state_of run.old.book) asked.now.wanted (due_query basis.now asked.now) ∷ []) run.old run.new) }
    ensures ticks { OnOk result (steps.new ≡ steps.old + units_of (state_of run.old.book) (Some (Looking session (due_query basis.now asked.now)))) }
    ensures at_most { (steps.old ≤ steps.new) × (steps.new ≤ steps.old + units_of (state_of run.old.book) (Some (Looking session (due_query basis.now asked.now)))) }
{
    let at = session as usize - 1;
    let (answer, solved) = answer_ask(alloc, basis, &mut run.book, session, asked, steps)?;
    run.solved[at] = solved;
    run.transcripts[at].push(answer)?;
    run.taken[at] += 1;
    Ok(())
}

/// The next step of a session that has one: its pending look is settled, or else its next command is done.
pub fn step<L: Ledger>(
    alloc: Global,
    basis: &Basis,
    script: &Script,
    run: &mut Run,
    session: u32,
    steps: &mut Steps<L>,
) -> Result<(), Memory>
    requires basis { basis.now ≡ script.now.extent }
    requires run { IsRun script.now run.old }
    requires next { HasNext script.now run.old.book session }
    ensures run { OnOk result (IsRun script.now run.new) }
    ensures order { OnOk result (order_of run.new.book ≡ order_of run.old.book ++ session ∷ []) }
    ensures capacity { OnOk result (run.new.book.capacity ≡ run.old.book.capacity) }
    ensures ticks { OnOk result (steps.new ≡ steps.old + units_of (state_of run.old.book) (next_request script.now.extent session (run_of script.now run.old.book))) }
    ensures at_most { (steps.old ≤ steps.new) × (steps.new ≤ steps.old + units_of (state_of run.old.book) (next_request script.now.extent session (run_of script.now run.old.book))) }
{
    let sessions = script.sessions();
    let at = session as usize - 1;
    if run.book.pending(session) {
        return settle_step(run, session);
    }
    let commands = sessions[at].list();
    let next = run.taken[at];
    match &commands[next] {
        Command::Edit(edit) => edit_step(alloc, run, session, edit),
        Command::Ask(ask) => look_step(alloc, basis, run, session, &asked_by(ask), steps),
    }
}
