//! The reply that is due, made whole before anything is written.
ghost use Rattle.std.specs.Prelude.{◌≡◌, ◌<◌, ◌≤◌, ℕ, List, codes, IfOk, OnOk};
ghost use Rattle.script_reader.specs.Script.{parse};
ghost use Rattle.session.specs.Play.{DueOutcome};
ghost use Rattle.session.specs.Answers.{IsOutcome, AllHaveMembers, IsLogOf};
ghost use Rattle.session.specs.Logarithms.{LogarithmsExpand};
ghost use Rattle.session.specs.Versions.{VersionsNeverFall};
ghost use Rattle.rough_main.specs.Statuses.{code_of};
ghost use Rattle.rough_main.specs.Due.{written, ordered, script_reply, generated_reply, IsReply, IsLegalFor};

use crate::fault_text::{place_text, refusal};
use crate::status::Status;
use answers::{gen_script, json_of, summary_of, text_of};
use command_line::Form;
use hall_set::HallSet;
use script_reader::{Script, read_script};
use session::laws::{logarithms_expand, versions_never_fall};
use session::{Gate, Outcome, ReplayFault, free_counters, replay, replay_round, run_all};
use std::alloc::Global;
use std::sync::Wait;
use std::thread::Threads;
use words::{Capacity, Free, Memory, Steps};

/// A status, and the text that is to be written with it.
#[derive(Drop)]
pub struct Reply {
    pub status: Status,
    pub text: Vec<u8>,
}

/// The reply with an outcome of the script in this form.
fn reply_with(
    alloc: Global,
    script: &Script,
    form: Form,
    outcome: &Outcome,
) -> Result<Reply, Memory>
    requires members { AllHaveMembers script.now.extent outcome.now }
    requires log { IsLogOf script.now.extent outcome.now }
    ensures { (due : DueOutcome) → IsOutcome script.now.extent outcome.now due → IfOk result (λ reply. IsReply (code_of reply.status) reply.text.items (record { status = 0; text = written form script.now due })) }
{
    let hall = HallSet::build(alloc, script.shape())?;
    let watches = script.watches();
    let text = match form {
        Form::Text => text_of(alloc, &hall, watches, outcome)?,
        Form::Json => json_of(alloc, &hall, watches, outcome)?,
    };
    Ok(Reply {
        status: Status::Answered,
        text,
    })
}

/// The reply to a script whose sessions take their steps in this order, whose steps nobody counts.
fn reply_ordered(
    alloc: Global,
    script: &Script,
    form: Form,
    capacity: Capacity,
    order: &[u32],
) -> Result<Reply, Memory>
    ensures { IfOk result (λ reply. IsReply (code_of reply.status) reply.text.items (ordered form capacity script.now order.now)) }
{
    let mut steps = Steps::new(Free);
    match replay(alloc, script, capacity, order, &mut steps) {
        Ok(outcome) => reply_with(alloc, script, form, &outcome),
        Err(ReplayFault::Order(place)) => Ok(Reply {
            status: Status::ScriptRefused,
            text: place_text(alloc, place)?,
        }),
        Err(ReplayFault::Memory) => Err(Memory),
    }
}

/// The reply to bytes that spell a script whose sessions take their steps in this order.
pub fn reply_in_order(
    alloc: Global,
    bytes: &[u8],
    form: Form,
    capacity: Capacity,
    order: &[u32],
) -> Result<Reply, Memory>
    ensures reply { IfOk result (λ reply. IsReply (code_of reply.status) reply.text.items (script_reply form capacity order.now (parse bytes.now))) }
    ensures logarithms { OnOk result (LogarithmsExpand (parse bytes.now)) }
    ensures versions { OnOk result (VersionsNeverFall (parse bytes.now)) }
{
    match read_script(alloc, bytes) {
        Ok(script) => {
            logarithms_expand(&script);
            versions_never_fall(&script);
            reply_ordered(alloc, &script, form, capacity, order)
        }
        Err(fault) => refusal(alloc, fault),
    }
}

/// The reply to bytes that spell a script whose sessions run on threads, whose steps nobody counts. It is that of a legal order.
pub fn reply_on_threads<R: Threads + Wait + Sync, G: Gate>(
    rt: &R,
    alloc: Global,
    bytes: &[u8],
    form: Form,
    capacity: Capacity,
    gate: &G,
) -> Result<Reply, Memory>
    ensures reply { IfOk result (λ reply. (order : List ℕ) × IsLegalFor capacity order (parse bytes.now) × IsReply (code_of reply.status) reply.text.items (script_reply form capacity order (parse bytes.now))) }
    ensures logarithms { OnOk result (LogarithmsExpand (parse bytes.now)) }
    ensures versions { OnOk result (VersionsNeverFall (parse bytes.now)) }
{
    match read_script(alloc, bytes) {
        Ok(script) => {
            logarithms_expand(&script);
            versions_never_fall(&script);
            let steps = free_counters(alloc, script.sessions().len())?;
            let ran = run_all(rt, alloc, &script, capacity, gate, steps)?;
            reply_with(alloc, &script, form, &ran.outcome)
        }
        Err(fault) => refusal(alloc, fault),
    }
}

/// The summary of the generated script of n commands, whose sessions take one step each in turn.
pub fn reply_generated(alloc: Global, n: u32, capacity: Capacity) -> Result<Reply, Memory>
    requires one { 1 ≤ n }
    requires few { n ≤ 10000 }
    ensures { IfOk result (λ reply. IsReply (code_of reply.status) reply.text.items (generated_reply n capacity)) }
{
    let mut steps = Steps::new(Free);
    let script = gen_script(alloc, n)?;
    let outcome = replay_round(alloc, &script, capacity, &mut steps)?;
    Ok(Reply {
        status: Status::Answered,
        text: summary_of(alloc, n, script.shape(), &outcome)?,
    })
}

/// The reply to words that are refused.
pub fn reply_to_refused(alloc: Global) -> Result<Reply, Memory>
    ensures { IfOk result (λ reply. (code_of reply.status ≡ 2) × (reply.text.items ≡ codes "fault words\n")) }
{
    Ok(Reply {
        status: Status::WordsRefused,
        text: Vec::from_slice(alloc, b"fault words\n")?,
    })
}
