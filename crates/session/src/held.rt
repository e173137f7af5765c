//! The book behind a turnstile, and what a session does in one hold of the turn.
ghost use Rattle.std.specs.Prelude.{◌≡◌, ◌+◌, ◌<◌, ◌≤◌, ◌^◌, true, false, ℕ, List, None, length, IfOk, OnOk, OnErr};
ghost use Rattle.turnstile.specs.Passes.{view, IsPassOf};
ghost use Rattle.versions.specs.Versions.{IsEdit, edit_reply};
ghost use Rattle.book.specs.declared.step.Step.{Step as TheStep};
ghost use Rattle.book.specs.Play.{Editing, Looking, Settling};
ghost use Rattle.book.specs.Looks.{IsQuery, AllowsSignatures, look_visits};
ghost use Rattle.book.specs.Books.{IsSettledBy, state_of, log_of};
ghost use Rattle.session.specs.Holds.{seen_book, book_of, pending_in, CanStep, IsTaken, IsStill, Adds, GaveUp, TookAtMost};
ghost use Rattle.session.specs.Looks.{IsLooked};
ghost use Rattle.session.specs.Turns.{IsIdle};

use crate::look::{Looked, look_at};
use book::{Book, EditReply, Query, Step};
use solve::Solved;
use std::alloc::Global;
use std::sync::Wait;
use turnstile::{Kept, Pass, Turnstile};
use versions::Edit;
use words::{Ledger, Memory, Steps};

/// A book that sessions hold one after another. An entry is a step, its label the session.
#[derive(Drop)]
pub struct BookInTurn {
    pub(crate) book: Book,
    pub ghost few: { length book.history < 2 ^ 62 },
}

impl Kept for BookInTurn {
    ghost use Rattle.book.specs.Play.{session_of};
    ghost use Rattle.session.specs.Holds.{frame_of};

    type Entry = Step;

    ghost entries = { λ held. held.book.history };

    ghost label = { session_of };

    ghost frame = { λ held. frame_of held.book };

    ghost few = { λ held. held.few };
}

impl BookInTurn {
    /// The book, to be handed round.
    pub fn of(book: Book) -> BookInTurn
        ensures { result.book ≡ book }
    {
        BookInTurn { book }
    }
}

/// Waits for the turn and takes the book, unless it is spent.
fn take<R: Wait>(
    rt: &R,
    turns: &Turnstile<BookInTurn>,
    pass: &mut Pass<BookInTurn>,
) -> Result<Book, Memory>
    requires idle { IsIdle turns.now pass.old }
    requires steps { CanStep (view pass.old) }
    ensures still { IsStill (view pass.old) (view pass.new) }
    ensures ok { IfOk result (λ book. IsPassOf turns.now pass.new × IsTaken (view pass.old) book.history × (book ≡ book_of (view pass.old).frame book.history) × (view pass.new ≡ record (view pass.old) { turn = true; taken = book.history })) }
    ensures idle { OnErr result (IsIdle turns.now pass.new) }
    ensures err { OnErr result (GaveUp (view pass.old) (view pass.new)) }
{
    let BookInTurn { book } = turns.take(rt, pass);
    let _version = book.version();
    if book.spent() {
        turns.give_back(pass, BookInTurn::of(book));
        return Err(Memory);
    }
    Ok(book)
}

/// Makes an edit.
pub fn edit<R: Wait>(
    rt: &R,
    alloc: Global,
    turns: &Turnstile<BookInTurn>,
    pass: &mut Pass<BookInTurn>,
    e: &Edit,
) -> Result<EditReply, Memory>
    requires idle { IsIdle turns.now pass.old }
    requires steps { CanStep (view pass.old) }
    requires free { pending_in (view pass.old) ≡ None }
    requires edit { IsEdit (seen_book (view pass.old)).extent e.now }
    ensures idle { IsIdle turns.now pass.new }
    ensures still { IsStill (view pass.old) (view pass.new) }
    ensures adds { IfOk result (λ reply. (history : List TheStep) × Adds (view pass.old) (view pass.new) history (Editing (view pass.old).label e.now) × (reply ≡ edit_reply (state_of (book_of (view pass.old).frame history)).edits e.now)) }
    ensures err { OnErr result (GaveUp (view pass.old) (view pass.new)) }
{
    let mut book = take(rt, turns, pass)?;
    match book.edit(alloc, pass.label(), e) {
        Ok(reply) => {
            turns.give(pass, BookInTurn::of(book));
            Ok(reply)
        }
        Err(memory) => {
            turns.give_back(pass, BookInTurn::of(book));
            Err(memory)
        }
    }
}

/// Looks at a version. Takes one unit for each visited node.
pub fn look<R: Wait, L: Ledger>(
    rt: &R,
    alloc: Global,
    turns: &Turnstile<BookInTurn>,
    pass: &mut Pass<BookInTurn>,
    q: Query,
    steps: &mut Steps<L>,
) -> Result<Looked, Memory>
    requires idle { IsIdle turns.now pass.old }
    requires steps { CanStep (view pass.old) }
    requires free { pending_in (view pass.old) ≡ None }
    requires query { IsQuery q }
    requires allowed { AllowsSignatures (seen_book (view pass.old)).extent q.allowed }
    ensures idle { IsIdle turns.now pass.new }
    ensures still { IsStill (view pass.old) (view pass.new) }
    ensures adds { IfOk result (λ looked. (history : List TheStep) × Adds (view pass.old) (view pass.new) history (Looking (view pass.old).label q) × IsLooked (view pass.old).label q (book_of (view pass.old).frame history) looked × (steps.new ≡ steps.old + look_visits (state_of (book_of (view pass.old).frame history)) q)) }
    ensures err { OnErr result (GaveUp (view pass.old) (view pass.new)) }
    ensures counted { steps.old ≤ steps.new }
    ensures at_most { OnErr result (TookAtMost (view pass.old) q steps.old steps.new) }
{
    let mut book = take(rt, turns, pass)?;
    match look_at(alloc, &mut book, pass.label(), q, steps) {
        Ok(looked) => {
            turns.give(pass, BookInTurn::of(book));
            Ok(looked)
        }
        Err(memory) => {
            turns.give_back(pass, BookInTurn::of(book));
            Err(memory)
        }
    }
}

/// Settles the pending look. After want of memory the book is spent.
pub fn settle<R: Wait>(
    rt: &R,
    turns: &Turnstile<BookInTurn>,
    pass: &mut Pass<BookInTurn>,
    solved: &Solved,
) -> Result<(), Memory>
    requires idle { IsIdle turns.now pass.old }
    requires steps { CanStep (view pass.old) }
    requires settled { IsSettledBy (log_of (seen_book (view pass.old))) (pending_in (view pass.old)) solved.now.nodes.items }
    ensures idle { IsIdle turns.now pass.new }
    ensures still { IsStill (view pass.old) (view pass.new) }
    ensures adds { OnOk result ((history : List TheStep) × Adds (view pass.old) (view pass.new) history (Settling (view pass.old).label)) }
    ensures err { OnErr result (GaveUp (view pass.old) (view pass.new)) }
{
    let mut book = take(rt, turns, pass)?;
    match book.settle(pass.label(), solved) {
        Ok(_kept) => {
            turns.give(pass, BookInTurn::of(book));
            Ok(())
        }
        Err(memory) => {
            turns.give_back(pass, BookInTurn::of(book));
            Err(memory)
        }
    }
}
