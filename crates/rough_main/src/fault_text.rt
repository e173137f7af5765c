//! The texts of refusals.
ghost use Rattle.std.specs.Prelude.{◌≡◌, ◌≢◌, IfOk};
ghost use Rattle.rough_main.specs.Statuses.{code_of};
ghost use Rattle.rough_main.specs.Due.{reason_text, line_text as due_line, place_text as due_place, fault_reply, IsReply};

use crate::reply::Reply;
use crate::status::Status;
use script_reader::{Reason, ScriptFault};
use std::alloc::Global;
use words::Memory;

/// The word for a reason.
fn reason_name(reason: Reason) -> &'static str
    ensures { result.now ≡ reason_text reason }
{
    match reason {
        Reason::Byte => "byte",
        Reason::Keyword => "keyword",
        Reason::Place => "place",
        Reason::Fields => "fields",
        Reason::Name => "name",
        Reason::Time => "time",
        Reason::Number => "number",
        Reason::Width => "width",
        Reason::Depth => "depth",
        Reason::Words => "words",
        Reason::Session => "session",
        Reason::Interval => "interval",
        Reason::Resolution => "resolution",
        Reason::Watches => "watches",
        Reason::Commands => "commands",
        Reason::Load => "load",
        Reason::Answers => "answers",
        Reason::End => "end",
    }
}

/// Names the first bad line and its reason.
fn line_text(alloc: Global, line: u64, reason: Reason) -> Result<Vec<u8>, Memory>
    ensures { IfOk result (λ text. text.items ≡ due_line line reason) }
{
    let name = reason_name(reason);
    Ok(format!(in alloc; "fault line {line} {name}\n")?.into_bytes())
}

/// Names the place at which an order is illegal.
pub fn place_text(alloc: Global, place: u64) -> Result<Vec<u8>, Memory>
    ensures { IfOk result (λ text. text.items ≡ due_place place) }
{
    Ok(format!(in alloc; "fault order place {place}\n")?.into_bytes())
}

/// The reply that says why bytes are refused.
pub fn refusal(alloc: Global, fault: ScriptFault) -> Result<Reply, Memory>
    ensures { IfOk result (λ reply. (fault ≢ ScriptFault.Memory) × IsReply (code_of reply.status) reply.text.items (fault_reply fault)) }
{
    let text = match fault {
        ScriptFault::Size => Vec::from_slice(alloc, b"fault size\n")?,
        ScriptFault::Line(line, reason) => line_text(alloc, line, reason)?,
        ScriptFault::Memory => return Err(Memory),
    };
    Ok(Reply {
        status: Status::ScriptRefused,
        text,
    })
}
