ghost use Rattle.std.specs.Prelude.{◌≡◌, ◌++◌, ◌≤◌, ℕ, List, length, map, codes, string_bytes, OnOk, IfOk, All};
ghost use Rattle.std.specs.Fmt.{decimal};
ghost use Rattle.session.specs.Play.{Due, DueOutcome};
ghost use Rattle.session.specs.Answers.{Shows, ShowsEach, ShowsAll, IsOutcome, IsLogOf, HasMembers, AllHaveMembers};
ghost use Rattle.watches.specs.Watches.{IsInterval};
ghost use Rattle.answers.specs.Text.{look_text, answer_text, answers_text, sessions_text, outcome_text};

use crate::coordinates::push_log_levels;
use crate::decimals::push_listed;
use crate::levels::push_levels;
use crate::names::Names;
use crate::watched::push_watches;
use hall_set::HallSet;
use session::{Answer, EditReply, LookReply, Outcome, Transcript};
use std::alloc::Global;
use watches::Interval;
use words::Memory;

/// Appends the reply to a query of this kind.
fn push_look(text: &mut String, kind: &str, reply: LookReply) -> Result<(), Memory>
    ensures { OnOk result (string_bytes text.new ≡ string_bytes text.old ++ look_text kind.now reply) }
{
    match reply {
        LookReply::Found {
            version,
            hits,
            misses,
            exps,
        } => {
            write!(text, " {kind} version {version}")?;
            writeln!(text, " hits {hits} misses {misses} exps {exps}")?
        }
        LookReply::NoVersion(version) => writeln!(text, " no-version {version}")?,
        LookReply::Pair(a, b) => writeln!(text, " growth {a} {b}")?,
        LookReply::Level(k) => writeln!(text, " growth-level {k}")?,
        LookReply::Overflow(weight) => writeln!(text, " overflow {weight}")?,
    }
    Ok(())
}

/// Appends the answer to the command of that number.
fn push_answer(
    text: &mut String,
    names: &mut Names,
    hall: &HallSet,
    number: usize,
    answer: &Answer,
) -> Result<(), Memory>
    requires { HasMembers hall.now answer.now }
    ensures { OnOk result ((due : Due) → Shows hall.now answer.now due → string_bytes text.new ≡ string_bytes text.old ++ answer_text hall.now number due) }
{
    match answer {
        Answer::Edit(EditReply::Done(version)) => writeln!(text, "{number} done {version}")?,
        Answer::Edit(EditReply::NameTaken(version)) => {
            writeln!(text, "{number} name-taken {version}")?
        }
        Answer::Edit(EditReply::NoRow(version)) => writeln!(text, "{number} no-row {version}")?,
        Answer::Sig { reply, tensor } => {
            write!(text, "{number}")?;
            push_look(text, "sig", *reply)?;
            push_levels(text, names, tensor)?;
        }
        Answer::Log { reply, lie } => {
            write!(text, "{number}")?;
            push_look(text, "log", *reply)?;
            push_log_levels(text, names, hall, lie)?;
        }
        Answer::Refused(reply) => {
            write!(text, "{number}")?;
            push_look(text, "", *reply)?;
        }
    }
    Ok(())
}

/// Appends the answers to commands that are numbered from 1.
fn push_answers(
    text: &mut String,
    names: &mut Names,
    hall: &HallSet,
    answers: &[Answer],
) -> Result<(), Memory>
    requires { All (HasMembers hall.now) answers.now }
    ensures { OnOk result ((dues : List Due) → ShowsEach hall.now answers.now dues → string_bytes text.new ≡ string_bytes text.old ++ answers_text hall.now 1 dues) }
{
    for (before, answer) in answers.iter().enumerate() {
        push_answer(text, names, hall, before + 1, answer)?;
    }
    Ok(())
}

/// Appends the answers of sessions that are numbered from 1.
fn push_sessions(
    text: &mut String,
    names: &mut Names,
    hall: &HallSet,
    transcripts: &[Transcript],
) -> Result<(), Memory>
    requires { All (All (HasMembers hall.now)) transcripts.now }
    ensures { OnOk result ((sessions : List (List Due)) → ShowsAll hall.now transcripts.now sessions → string_bytes text.new ≡ string_bytes text.old ++ sessions_text hall.now 1 sessions) }
{
    for (before, transcript) in transcripts.iter().enumerate() {
        let number = before + 1;
        writeln!(text, "session {number}")?;
        push_answers(text, names, hall, transcript.list())?;
    }
    Ok(())
}

/// The text of an outcome: the shape, the answers of each session, the order of the steps, the last version, and the versions that
/// touched each of these intervals. Where the outcome is the one that is due, so is its text. The set is that of the outcome's shape.
pub fn text_of(
    alloc: Global,
    hall: &HallSet,
    watches: &[Interval],
    outcome: &Outcome,
) -> Result<Vec<u8>, Memory>
    requires members { AllHaveMembers hall.now outcome.now }
    requires log { IsLogOf hall.now outcome.now }
    requires few { length watches.now ≤ 64 }
    requires watches { All IsInterval watches.now }
    ensures { IfOk result (λ text. (due : DueOutcome) → IsOutcome hall.now outcome.now due → text.items ≡ outcome_text hall.now watches.now due) }
{
    let mut text = String::new(alloc);
    let shape = hall.shape();
    let width = shape.width();
    let depth = shape.depth();
    let versions = outcome.edits.len();
    writeln!(text, "shape {width} {depth}")?;
    push_sessions(
        &mut text,
        &mut Names::new(alloc),
        hall,
        &outcome.transcripts,
    )?;
    write!(text, "order ")?;
    push_listed(&mut text, &outcome.order)?;
    writeln!(text)?;
    writeln!(text, "versions {versions}")?;
    push_watches(&mut text, alloc, shape, watches, &outcome.edits)?;
    Ok(text.into_bytes())
}
