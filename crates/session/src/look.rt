//! A look of the book, and its answer, which is computed without the book.
ghost use Rattle.std.specs.Prelude.{◌≡◌, ◌+◌, ◌≤◌, ◌++◌, ◌∷◌, [], ℕ, List, sum_by, is_some, IfOk, OnOk, OnErr};
ghost use Rattle.definitions.specs.Rows.{RowValue, moves_of};
ghost use Rattle.definitions.specs.Signature.{weight};
ghost use Rattle.solve.specs.Plans.{PlansStand, all_missed, exps_of};
ghost use Rattle.solve.specs.Solutions.{AreSolved};
ghost use Rattle.book.specs.declared.step.Step.{Step as TheStep};
ghost use Rattle.book.specs.declared.step.Step.TheVariants.{Looked as LookedStep};
ghost use Rattle.book.specs.declared.query.Query.{Query as TheQuery};
ghost use Rattle.book.specs.declared.step.LookReply.{LookReply as TheReply};
ghost use Rattle.book.specs.Play.{Looking, pending_of};
ghost use Rattle.book.specs.Looks.{IsQuery, AllowsSignatures, look_visits};
ghost use Rattle.book.specs.Books.{BookValue, IsReady, IsFree, state_of, log_of, with_request};
ghost use Rattle.session.specs.Play.{query_for as due_query, looked as due_look, valued};
ghost use Rattle.session.specs.Answers.{Shows, HasMembers, IsAllowed};
ghost use Rattle.session.specs.Runs.{IsSolvedFor, IsLastLook, exps_for};
ghost use Rattle.session.specs.Looks.{IsLooked, IsLookedFor};

use crate::answer::Answer;
use crate::asked::{Asked, Wanted};
use crate::basis::Basis;
use crate::value::answer_of;
use book::{Book, Look, LookReply, Query, Step};
use solve::{Gate, Solved, Work, solve};
use std::alloc::Global;
use words::{Ledger, Memory, Steps};

/// What a look gave: the work of its answer or why there is none, its reply, and whether it is to be settled.
#[derive(Drop)]
pub struct Looked {
    pub look: Look,
    pub reply: LookReply,
    pub pending: bool,
}

/// The reply to the look that is the last step.
fn last_reply(book: &Book) -> LookReply
    requires { IsLastLook book.now.history }
    ensures { (before : List TheStep) → (session : ℕ) → (q : TheQuery) → (reply : TheReply) → book.now.history ≡ before ++ LookedStep session q reply ∷ [] → result ≡ reply }
{
    match book.history().last() {
        Some(Step::Looked(_, _, reply)) => *reply,
        _ => unreachable!(),
    }
}

/// Looks at a version. Want of memory leaves the book as it was.
pub fn look_at<L: Ledger>(
    alloc: Global,
    book: &mut Book,
    session: u32,
    q: Query,
    steps: &mut Steps<L>,
) -> Result<Looked, Memory>
    requires ready { IsReady book.old session }
    requires free { IsFree book.old session }
    requires query { IsQuery q }
    requires allowed { AllowsSignatures book.old.extent q.allowed }
    ensures looked { IfOk result (IsLooked session q book.old) }
    ensures ok { OnOk result (book.new ≡ with_request (Looking session q) book.old) }
    ensures ticks { OnOk result (steps.new ≡ steps.old + look_visits (state_of book.old) q) }
    ensures at_most { (steps.old ≤ steps.new) × (steps.new ≤ steps.old + look_visits (state_of book.old) q) }
    ensures err { OnErr result (book.new ≡ book.old) }
{
    let look = book.look(alloc, session, q, steps)?;
    Ok(Looked {
        look,
        reply: last_reply(book),
        pending: book.pending(session),
    })
}

/// The answer to a look that gave a work, and the work's solution.
fn answer_work<G: Gate, L: Ledger>(
    alloc: Global,
    basis: &Basis,
    session: u32,
    wanted: &Wanted,
    reply: LookReply,
    work: &Work,
    gate: &G,
    steps: &mut Steps<L>,
) -> Result<(Answer, Solved), Memory>
    requires extent { work.now.extent ≡ basis.now }
    requires allowed { (rows : List RowValue) × PlansStand work.now.plans (moves_of rows) × IsAllowed basis.now wanted.now (weight (moves_of rows)) }
    ensures shows { (rows : List RowValue) → PlansStand work.now.plans (moves_of rows) → IfOk result (λ r. Shows basis.now r.0 (valued basis.now wanted.now reply rows)) }
    ensures members { IfOk result (λ r. HasMembers basis.now r.0) }
    ensures nodes { IfOk result (λ r. AreSolved basis.now (all_missed work.now.plans) r.1.nodes.items) }
    ensures ticks { OnOk result (steps.new ≡ steps.old + sum_by exps_of work.now.plans) }
    ensures counted { steps.old ≤ steps.new }
    ensures at_most { steps.new ≤ steps.old + sum_by exps_of work.now.plans }
{
    let solved = solve(alloc, work, basis.hall(), session, gate, steps)?;
    let answer = answer_of(alloc, basis, wanted, reply, &solved.sig)?;
    Ok((answer, solved))
}

/// The answer to a look, and the solution where it is to be settled.
pub fn answer_look<G: Gate, L: Ledger>(
    alloc: Global,
    basis: &Basis,
    session: u32,
    asked: &Asked,
    looked: &Looked,
    gate: &G,
    steps: &mut Steps<L>,
) -> Result<(Answer, Option<Solved>), Memory>
    requires looked { (old : BookValue) × IsLookedFor basis.now session asked.now old looked.now }
    ensures shows { (old : BookValue) → IsLookedFor basis.now session asked.now old looked.now → IfOk result (λ r. Shows basis.now r.0 (due_look basis.now (state_of old) asked.now.wanted (due_query basis.now asked.now))) }
    ensures members { IfOk result (λ r. HasMembers basis.now r.0) }
    ensures solved { (old : BookValue) → IsLookedFor basis.now session asked.now old looked.now → IfOk result (λ r. let new = with_request (Looking session (due_query basis.now asked.now)) old in IsSolvedFor (log_of new) (pending_of session (state_of new).pending) r.1) }
    ensures pending { (old : BookValue) → IsLookedFor basis.now session asked.now old looked.now → IfOk result (λ r. is_some r.1 ≡ is_some (pending_of session (state_of (with_request (Looking session (due_query basis.now asked.now)) old)).pending)) }
    ensures ticks { (old : BookValue) → IsLookedFor basis.now session asked.now old looked.now → OnOk result (steps.new ≡ steps.old + exps_for (state_of old) (due_query basis.now asked.now)) }
    ensures counted { steps.old ≤ steps.new }
    ensures at_most { (old : BookValue) → IsLookedFor basis.now session asked.now old looked.now → steps.new ≤ steps.old + exps_for (state_of old) (due_query basis.now asked.now) }
{
    match &looked.look {
        Look::Work(work) => {
            let (answer, solved) = answer_work(
                alloc,
                basis,
                session,
                &asked.wanted,
                looked.reply,
                work,
                gate,
                steps,
            )?;
            let kept = if looked.pending { Some(solved) } else { None };
            Ok((answer, kept))
        }
        _ => Ok((Answer::Refused(looked.reply), None)),
    }
}
