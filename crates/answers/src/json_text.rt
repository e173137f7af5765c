//! The JSON that a run writes.
ghost use Rattle.std.specs.Prelude.{◌≡◌, ◌∷◌, ◌≤◌, [], List, length, map, codes, IfOk, All};
ghost use Rattle.session.specs.Play.{Due, DueOutcome};
ghost use Rattle.session.specs.Answers.{Shows, ShowsEach, ShowsAll, IsOutcome, IsLogOf, HasMembers, AllHaveMembers};
ghost use Rattle.serde_json.specs.Data.{string, object, member, no_members, put as with_member};
ghost use Rattle.serde_json.specs.View.{view, members_view};
ghost use Rattle.book.specs.declared.step.LookReply.TheVariants.{Pair, Level, Overflow};
ghost use Rattle.watches.specs.Watches.{IsInterval};
ghost use Rattle.answers.specs.Json.{natural, list, edit_json, look_json, answer_json, answers_json, parts_json, watches_member, outcome_json, json_text as text_in_json};

use crate::json_levels::{decimal_text, logarithm_values, signature_values};
use crate::json_watches::watch_values;
use crate::names::Names;
use hall_set::HallSet;
use serde_json::{Map, Value, json, put};
use session::{Answer, EditReply, LookReply, Outcome, Transcript};
use std::alloc::Global;
use watches::Interval;
use words::{Memory, Shape};

/// A reply of these words, with a version.
fn version_value(alloc: Global, number: usize, reply: &str, version: u64) -> Result<Value, Memory>
    ensures { IfOk result (λ answer. view answer ≡ edit_json number reply.now version) }
{
    Ok(json!(in alloc; {"command": number, "reply": reply, "version": version})?)
}

/// The members of a reply to a query of this kind that has a value, but for its levels and their version.
fn count_members(
    alloc: Global,
    number: usize,
    kind: &str,
    hits: u64,
    misses: u64,
    exps: u64,
) -> Result<Map<String, Value>, Memory>
    ensures { IfOk result (λ members. members_view members.entries ≡ member (codes "command") (natural number) (member (codes "exps") (natural exps) (member (codes "hits") (natural hits) (member (codes "misses") (natural misses) (member (codes "reply") (string kind.now) no_members))))) }
{
    let mut members = Map::new(alloc);
    put(&mut members, alloc, "command", Value::from(number))?;
    put(&mut members, alloc, "exps", Value::from(exps))?;
    put(&mut members, alloc, "hits", Value::from(hits))?;
    put(&mut members, alloc, "misses", Value::from(misses))?;
    put(
        &mut members,
        alloc,
        "reply",
        Value::try_from_str(alloc, kind)?,
    )?;
    Ok(members)
}

/// The object of some members and the levels of a version.
fn found_value(
    alloc: Global,
    counts: Map<String, Value>,
    levels: Vec<Value>,
    version: u64,
) -> Result<Value, Memory>
    ensures { IfOk result (λ answer. view answer ≡ object (with_member (codes "version") (natural version) (with_member (codes "levels") (list (map view levels.items)) (members_view counts.entries)))) }
{
    let mut members = counts;
    put(&mut members, alloc, "levels", Value::Array(levels))?;
    put(&mut members, alloc, "version", Value::from(version))?;
    Ok(Value::Object(members))
}

/// The reply that names two members of the Hall set whose bracket is too heavy.
fn pair_value(alloc: Global, number: usize, left: u32, right: u32) -> Result<Value, Memory>
    ensures { IfOk result (λ answer. view answer ≡ look_json number [] (Pair left right) []) }
{
    let mut members = Map::new(alloc);
    put(&mut members, alloc, "command", Value::from(number))?;
    put(&mut members, alloc, "left", Value::from(left))?;
    put(
        &mut members,
        alloc,
        "reply",
        Value::try_from_str(alloc, "growth")?,
    )?;
    put(&mut members, alloc, "right", Value::from(right))?;
    Ok(Value::Object(members))
}

/// The reply that names the length of the words whose images are too heavy.
fn length_value(alloc: Global, number: usize, k: u32) -> Result<Value, Memory>
    ensures { IfOk result (λ answer. view answer ≡ look_json number [] (Level k) []) }
{
    Ok(json!(in alloc; {"command": number, "level": k, "reply": "growth-level"})?)
}

/// The reply that tells the weight of rows that don't fit.
fn weight_value(alloc: Global, number: usize, weight: u128) -> Result<Value, Memory>
    ensures { IfOk result (λ answer. view answer ≡ look_json number [] (Overflow weight) []) }
{
    let weight = decimal_text(alloc, weight)?;
    Ok(json!(in alloc; {"command": number, "reply": "overflow", "weight": weight})?)
}

/// The reply to a query of this kind, with these levels where it has a value.
fn look_value(
    alloc: Global,
    number: usize,
    kind: &str,
    reply: LookReply,
    levels: Vec<Value>,
) -> Result<Value, Memory>
    ensures { IfOk result (λ answer. view answer ≡ look_json number kind.now reply (map view levels.items)) }
{
    match reply {
        LookReply::Found {
            version,
            hits,
            misses,
            exps,
        } => {
            let counts = count_members(alloc, number, kind, hits, misses, exps)?;
            found_value(alloc, counts, levels, version)
        }
        LookReply::NoVersion(version) => version_value(alloc, number, "no-version", version),
        LookReply::Pair(a, b) => pair_value(alloc, number, a, b),
        LookReply::Level(k) => length_value(alloc, number, k),
        LookReply::Overflow(weight) => weight_value(alloc, number, weight),
    }
}

/// The answer to the command of that number.
fn answer_value(
    alloc: Global,
    names: &mut Names,
    hall: &HallSet,
    number: usize,
    answer: &Answer,
) -> Result<Value, Memory>
    requires { HasMembers hall.now answer.now }
    ensures { IfOk result (λ value. (due : Due) → Shows hall.now answer.now due → view value ≡ answer_json hall.now number due) }
{
    match answer {
        Answer::Edit(EditReply::Done(version)) => version_value(alloc, number, "done", *version),
        Answer::Edit(EditReply::NameTaken(version)) => {
            version_value(alloc, number, "name-taken", *version)
        }
        Answer::Edit(EditReply::NoRow(version)) => version_value(alloc, number, "no-row", *version),
        Answer::Sig { reply, tensor } => {
            let levels = signature_values(alloc, names, tensor)?;
            look_value(alloc, number, "sig", *reply, levels)
        }
        Answer::Log { reply, lie } => {
            let levels = logarithm_values(alloc, names, hall, lie)?;
            look_value(alloc, number, "log", *reply, levels)
        }
        Answer::Refused(reply) => look_value(alloc, number, "", *reply, Vec::new(alloc)),
    }
}

/// The answers to commands that are numbered from 1.
fn answer_values(
    alloc: Global,
    names: &mut Names,
    hall: &HallSet,
    answers: &[Answer],
) -> Result<Vec<Value>, Memory>
    requires { All (HasMembers hall.now) answers.now }
    ensures { IfOk result (λ values. (dues : List Due) → ShowsEach hall.now answers.now dues → map view values.items ≡ answers_json hall.now 1 dues) }
{
    let mut values = Vec::new(alloc);
    for (before, answer) in answers.iter().enumerate() {
        let value = answer_value(alloc, names, hall, before + 1, answer)?;
        values.push(value)?;
    }
    Ok(values)
}

/// The answers of each session.
fn session_values(
    alloc: Global,
    names: &mut Names,
    hall: &HallSet,
    transcripts: &[Transcript],
) -> Result<Vec<Value>, Memory>
    requires { All (All (HasMembers hall.now)) transcripts.now }
    ensures { IfOk result (λ values. (sessions : List (List Due)) → ShowsAll hall.now transcripts.now sessions → map view values.items ≡ map (λ dues. list (answers_json hall.now 1 dues)) sessions) }
{
    let mut values = Vec::new(alloc);
    for transcript in transcripts {
        let answers = answer_values(alloc, names, hall, transcript.list())?;
        values.push(Value::Array(answers))?;
    }
    Ok(values)
}

/// The sessions of the steps.
fn order_values(alloc: Global, order: &[u32]) -> Result<Vec<Value>, Memory>
    ensures { IfOk result (λ values. map view values.items ≡ map natural order.now) }
{
    let mut values = Vec::new(alloc);
    for session in order {
        values.push(Value::from(*session))?;
    }
    Ok(values)
}

/// The members of an outcome's parts, but for its watches.
fn parts_members(
    alloc: Global,
    order: Vec<Value>,
    sessions: Vec<Value>,
    shape: Shape,
    versions: usize,
) -> Result<Map<String, Value>, Memory>
    ensures { IfOk result (λ parts. members_view parts.entries ≡ parts_json (map view order.items) (map view sessions.items) shape versions no_members) }
{
    let shape = vec![in alloc; Value::from(shape.width()), Value::from(shape.depth())]?;
    let mut parts = Map::new(alloc);
    put(&mut parts, alloc, "order", Value::Array(order))?;
    put(&mut parts, alloc, "sessions", Value::Array(sessions))?;
    put(&mut parts, alloc, "shape", Value::Array(shape))?;
    put(&mut parts, alloc, "versions", Value::from(versions))?;
    Ok(parts)
}

/// The object of an outcome's parts.
fn parts_value(
    alloc: Global,
    order: Vec<Value>,
    sessions: Vec<Value>,
    shape: Shape,
    versions: usize,
    watches: Vec<Value>,
) -> Result<Value, Memory>
    ensures { IfOk result (λ value. view value ≡ object (parts_json (map view order.items) (map view sessions.items) shape versions (watches_member (map view watches.items)))) }
{
    let mut parts = parts_members(alloc, order, sessions, shape, versions)?;
    if watches.is_empty() {
        return Ok(Value::Object(parts));
    }
    put(&mut parts, alloc, "watches", Value::Array(watches))?;
    Ok(Value::Object(parts))
}

/// An outcome with these watches in JSON.
fn outcome_value(
    alloc: Global,
    hall: &HallSet,
    watches: &[Interval],
    outcome: &Outcome,
) -> Result<Value, Memory>
    requires members { AllHaveMembers hall.now outcome.now }
    requires log { IsLogOf hall.now outcome.now }
    requires few { length watches.now ≤ 64 }
    requires watches { All IsInterval watches.now }
    ensures { IfOk result (λ value. (due : DueOutcome) → IsOutcome hall.now outcome.now due → view value ≡ outcome_json hall.now watches.now due) }
{
    let shape = hall.shape();
    let order = order_values(alloc, &outcome.order)?;
    let sessions = session_values(alloc, &mut Names::new(alloc), hall, &outcome.transcripts)?;
    let touched = watch_values(alloc, shape, watches, &outcome.edits)?;
    let versions = outcome.edits.len();
    parts_value(alloc, order, sessions, shape, versions, touched)
}

/// The JSON of an outcome, on one line: the order of the steps, the answers of each session, the shape, the last version, and the
/// versions that touched each of these intervals, where there are any. Where the outcome is the one that is due, so is its JSON.
/// The set is that of the outcome's shape.
pub fn json_of(
    alloc: Global,
    hall: &HallSet,
    watches: &[Interval],
    outcome: &Outcome,
) -> Result<Vec<u8>, Memory>
    requires members { AllHaveMembers hall.now outcome.now }
    requires log { IsLogOf hall.now outcome.now }
    requires few { length watches.now ≤ 64 }
    requires watches { All IsInterval watches.now }
    ensures { IfOk result (λ text. (due : DueOutcome) → IsOutcome hall.now outcome.now due → text.items ≡ text_in_json hall.now watches.now due) }
{
    let value = outcome_value(alloc, hall, watches, outcome)?;
    let mut text = value.to_vec(alloc)?;
    text.push(b'\n')?;
    Ok(text)
}
