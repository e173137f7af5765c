//! A step that edits the stream.
ghost use Rattle.std.specs.Prelude.{◌≡◌, ◌++◌, ◌∷◌, [], List, Option, length, IfOk, OnOk, OnErr};
ghost use Rattle.versions.specs.Versions.{IsEdit, edit_reply, after_edit};
ghost use Rattle.book.specs.declared.step.Step.TheVariants.{Edited};
ghost use Rattle.book.specs.Books.{AreKept, held};
ghost use Rattle.book.specs.Play.{pairs_after_edit};

use crate::expiry::drop_past;
use crate::step::Step;
use node_cache::NodeCache;
use std::alloc::Global;
use versions::{Edit, EditReply, Stream};
use words::Memory;

/// An edit, with its step. Want of memory leaves all as it was.
pub fn edit(
    alloc: Global,
    stream: &mut Stream,
    cache: &mut NodeCache,
    history: &mut Vec<Step>,
    session: u32,
    e: &Edit,
) -> Result<EditReply, Memory>
    requires edit { IsEdit stream.old.extent e.now }
    requires kept { AreKept stream.old cache.old.entries }
    ensures reply { IfOk result (λ reply. reply ≡ edit_reply stream.old.edits e.now) }
    ensures stream { OnOk result (stream.new ≡ record { extent = stream.old.extent; edits = after_edit stream.old.edits e.now }) }
    ensures pairs { OnOk result (held cache.new.entries ≡ pairs_after_edit stream.old.edits (after_edit stream.old.edits e.now) (held cache.old.entries)) }
    ensures kept { AreKept stream.new cache.new.entries }
    ensures capacity { cache.new.capacity ≡ cache.old.capacity }
    ensures history { OnOk result (history.new.items ≡ history.old.items ++ Edited session e.now (edit_reply stream.old.edits e.now) ∷ []) }
    ensures err { OnErr result ((stream.new ≡ stream.old) × (cache.new ≡ cache.old) × (history.new.items ≡ history.old.items)) }
{
    history.reserve(1)?;
    let copy = e.copy()?;
    let reply = stream.edit(alloc, e)?;
    if let EditReply::Done(_) = reply {
        drop_past(stream.log(), cache);
    }
    history.push_reserved(Step::Edited(session, copy, reply));
    Ok(reply)
}
