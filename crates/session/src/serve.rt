//! What a session does on its pass: its commands one after another, each step in a hold of its own.
ghost use Rattle.std.specs.Prelude.{◌≡◌, ◌+◌, ◌-◌, ◌<◌, ◌≤◌, ◌++◌, ◌∷◌, [], ℕ, List, length, IfOk, OnOk};
ghost use mathlib.Core.List.{IsPrefix};
ghost use Rattle.turnstile.specs.Passes.{view};
ghost use Rattle.turnstile.specs.Views.{new_pass};
ghost use Rattle.definitions.specs.Words.{Extent};
ghost use Rattle.versions.specs.Versions.{IsEdit};
ghost use Rattle.script_reader.specs.Script.{IsAsk, IsCommand};
ghost use Rattle.script_reader.specs.declared.command.Command.{Command as TheCommand};
ghost use Rattle.script_reader.specs.declared.command.Command.TheVariants.{Edit as EditCommand};
ghost use Rattle.book.specs.Books.{IsSession};
ghost use Rattle.session.specs.declared.answer.Answer.{Answer as TheAnswer};
ghost use Rattle.session.specs.Play.{of_session, Asks};
ghost use Rattle.session.specs.Moments.{moments_of, units_by};
ghost use Rattle.session.specs.Holds.{seen_book, IsStill};
ghost use Rattle.session.specs.Serving.{IsServing, IsNextCommand, IsOpening};
ghost use Rattle.session.specs.Turns.{IsIdle};

use crate::answer::{Answer, Transcript};
use crate::asked::{Asked, asked_by};
use crate::basis::Basis;
use crate::held;
use crate::held::BookInTurn;
use crate::look::answer_look;
use crate::query::query_for;
use script_reader::{Command, Script};
use solve::Gate;
use std::alloc::Global;
use std::sync::Wait;
use turnstile::{Pass, Turnstile};
use versions::Edit;
use words::{Ledger, Memory, Shape, Steps};

/// Makes an edit, and answers it.
fn serve_edit<R: Wait>(
    rt: &R,
    alloc: Global,
    turns: &Turnstile<BookInTurn>,
    pass: &mut Pass<BookInTurn>,
    script: &Script,
    edit: &Edit,
) -> Result<Answer, Memory>
    requires idle { IsIdle turns.now pass.old }
    requires served { (taken : ℕ) × (answers : List TheAnswer) × IsServing script.now (view pass.old) taken answers × IsNextCommand script.now (view pass.old).label taken (EditCommand edit.now) }
    requires edit { IsEdit script.now.extent edit.now }
    ensures idle { IsIdle turns.now pass.new }
    ensures still { IsStill (view pass.old) (view pass.new) }
    ensures served { (taken : ℕ) → (answers : List TheAnswer) → IsServing script.now (view pass.old) taken answers → IsNextCommand script.now (view pass.old).label taken (EditCommand edit.now) →
        IfOk result (λ answer. IsServing script.now (view pass.new) (taken + 1) (answers ++ answer ∷ [])) }
    ensures kept { IsPrefix (view pass.old).own (view pass.new).own }
    ensures units { OnOk result (units_by (moments_of (seen_book (view pass.new)) (view pass.old).label) ≡ units_by (moments_of (seen_book (view pass.old)) (view pass.old).label)) }
{
    let _shape = script.shape();
    Ok(Answer::Edit(held::edit(rt, alloc, turns, pass, edit)?))
}

/// Looks at a version, answers with the value of its rows, and settles the look where it is pending. The answer is computed without the turn.
fn serve_ask<R: Wait, G: Gate, L: Ledger>(
    rt: &R,
    alloc: Global,
    turns: &Turnstile<BookInTurn>,
    pass: &mut Pass<BookInTurn>,
    basis: &Basis,
    script: &Script,
    asked: &Asked,
    gate: &G,
    steps: &mut Steps<L>,
) -> Result<Answer, Memory>
    requires idle { IsIdle turns.now pass.old }
    requires basis { basis.now ≡ script.now.extent }
    requires served { (taken : ℕ) × (answers : List TheAnswer) × (command : TheCommand) × IsServing script.now (view pass.old) taken answers × IsNextCommand script.now (view pass.old).label taken command × Asks command asked.now }
    requires ask { IsAsk asked.now.ask }
    ensures idle { IsIdle turns.now pass.new }
    ensures still { IsStill (view pass.old) (view pass.new) }
    ensures served { (taken : ℕ) → (answers : List TheAnswer) → (command : TheCommand) → IsServing script.now (view pass.old) taken answers → IsNextCommand script.now (view pass.old).label taken command → Asks command asked.now →
        IfOk result (λ answer. IsServing script.now (view pass.new) (taken + 1) (answers ++ answer ∷ [])) }
    ensures kept { IsPrefix (view pass.old).own (view pass.new).own }
    ensures counted { steps.old ≤ steps.new }
    ensures ticks { OnOk result (steps.new + units_by (moments_of (seen_book (view pass.old)) (view pass.old).label) ≡ steps.old + units_by (moments_of (seen_book (view pass.new)) (view pass.old).label)) }
{
    let _shape = script.shape();
    let session = pass.label();
    let q = query_for(alloc, basis, asked)?;
    let looked = held::look(rt, alloc, turns, pass, q, steps)?;
    let (answer, solved) = answer_look(alloc, basis, session, asked, &looked, gate, steps)?;
    if let Some(solved) = solved {
        held::settle(rt, turns, pass, &solved)?;
    }
    Ok(answer)
}

/// Does the session's next command, and answers it.
fn serve_command<R: Wait, G: Gate, L: Ledger>(
    rt: &R,
    alloc: Global,
    turns: &Turnstile<BookInTurn>,
    pass: &mut Pass<BookInTurn>,
    basis: &Basis,
    script: &Script,
    command: &Command,
    gate: &G,
    steps: &mut Steps<L>,
) -> Result<Answer, Memory>
    requires idle { IsIdle turns.now pass.old }
    requires basis { basis.now ≡ script.now.extent }
    requires served { (taken : ℕ) × (answers : List TheAnswer) × IsServing script.now (view pass.old) taken answers × IsNextCommand script.now (view pass.old).label taken command.now }
    requires command { IsCommand script.now.extent command.now }
    ensures idle { IsIdle turns.now pass.new }
    ensures still { IsStill (view pass.old) (view pass.new) }
    ensures served { (taken : ℕ) → (answers : List TheAnswer) → IsServing script.now (view pass.old) taken answers → IsNextCommand script.now (view pass.old).label taken command.now →
        IfOk result (λ answer. IsServing script.now (view pass.new) (taken + 1) (answers ++ answer ∷ [])) }
    ensures kept { IsPrefix (view pass.old).own (view pass.new).own }
    ensures counted { steps.old ≤ steps.new }
    ensures ticks { OnOk result (steps.new + units_by (moments_of (seen_book (view pass.old)) (view pass.old).label) ≡ steps.old + units_by (moments_of (seen_book (view pass.new)) (view pass.old).label)) }
{
    match command {
        Command::Edit(edit) => serve_edit(rt, alloc, turns, pass, script, edit),
        Command::Ask(ask) => serve_ask(
            rt,
            alloc,
            turns,
            pass,
            basis,
            script,
            &asked_by(ask),
            gate,
            steps,
        ),
    }
}

/// Does the commands of the pass's session, whose number is the label of the pass, and gives their answers. Takes one unit for each
/// node that its looks visit and each row that is exponentiated for them. After want of memory the steps that were taken stay.
pub fn serve<R: Wait, G: Gate, L: Ledger>(
    rt: &R,
    alloc: Global,
    turns: &Turnstile<BookInTurn>,
    pass: &mut Pass<BookInTurn>,
    basis: &Basis,
    script: &Script,
    gate: &G,
    steps: &mut Steps<L>,
) -> Result<Transcript, Memory>
    requires idle { IsIdle turns.now pass.old }
    requires basis { basis.now ≡ script.now.extent }
    requires opening { IsOpening script.now (view pass.old) }
    ensures idle { IsIdle turns.now pass.new }
    ensures still { IsStill (view pass.old) (view pass.new) }
    ensures served { IfOk result (λ transcript. IsServing script.now (view pass.new) (length (of_session (view pass.old).label script.now.sessions)) transcript) }
    ensures kept { IsPrefix (view pass.old).own (view pass.new).own }
    ensures counted { steps.old ≤ steps.new }
    ensures ticks { OnOk result (steps.new ≡ steps.old + units_by (moments_of (seen_book (view pass.new)) (view pass.old).label)) }
{
    let mut transcript = Transcript::new(alloc);
    let sessions = script.sessions();
    let commands = sessions[pass.label() as usize - 1].list();
    for command in commands {
        let answer = serve_command(rt, alloc, turns, pass, basis, script, command, gate, steps)?;
        transcript.push(answer)?;
    }
    Ok(transcript)
}
