ghost use Rattle.std.specs.Prelude.{◌≡◌, [], length, false, OnOk, OnErr, IfOk, IfSome, IfNone};
ghost use Rattle.versions.specs.Versions.{IsLog, IsEdit, IsAccepted, accepts, current_rows, edit_reply, after_edit, refusal};

use crate::edit::{Edit, EditReply};
use crate::log::{Accepted, EditLog};
use increments::Rows;
use std::alloc::Global;
use std::marker::Model;
use words::{Memory, Shape};

/// The accepted edits of a stream; seen as the log.
#[derive(Drop)]
pub struct Stream {
    log: EditLog,
}

impl Model for Stream {
    ghost use Rattle.versions.specs.Versions.{LogValue};

    ghost Value = { LogValue };

    ghost view = { λ s. s.log };
}

/// The tick of the row that is edited, where the rows accept the edit.
fn accepted_tick(rows: &Rows, e: &Edit) -> Option<u64>
    ensures some { IfSome result (λ tick. IsAccepted rows.now.rows (record { edit = e.now; tick = tick })) }
    ensures none { IfNone result (accepts rows.now.rows e.now ≡ false) }
{
    match e {
        Edit::Append { name, tick, .. } => match rows.tick_of(name) {
            None => Some(*tick),
            Some(_) => None,
        },
        Edit::Correct { name, .. } => rows.tick_of(name),
        Edit::Remove { name } => rows.tick_of(name),
    }
}

/// The reply to an edit that isn't accepted, at this version.
fn refused(e: &Edit, version: u64) -> EditReply
    ensures { result ≡ refusal e.now version }
{
    match e {
        Edit::Append { .. } => EditReply::NameTaken(version),
        Edit::Correct { .. } | Edit::Remove { .. } => EditReply::NoRow(version),
    }
}

impl Stream {
    /// No edits, and no rows. Takes no memory.
    pub fn new(alloc: Global, shape: Shape) -> Stream
        ensures { result ≡ record { extent = shape; edits = [] } }
    {
        Stream {
            log: EditLog::new(alloc, shape),
        }
    }

    /// The current version.
    pub fn version(&self) -> u64
        ensures { result ≡ length self.now.edits }
    {
        self.log.len()
    }

    /// The rows of the current version.
    pub fn rows(&self) -> &Rows
        ensures { result.now ≡ record { extent = self.now.extent; rows = current_rows self.now.edits } }
    {
        self.log.rows()
    }

    /// The accepted edits.
    pub fn log(&self) -> &EditLog
        ensures { result.now ≡ self.now }
    {
        &self.log
    }

    /// The accepted edits alone, with the ticks of their rows. Takes no memory.
    pub fn into_edits(self) -> Vec<Accepted>
        ensures value { result.items ≡ self.edits }
        ensures log { IsLog self }
    {
        self.log.into_edits()
    }

    /// An edit is accepted, and makes the next version, or refused, and nothing changes.
    /// Nor does anything for want of memory.
    pub fn edit(&mut self, alloc: Global, e: &Edit) -> Result<EditReply, Memory>
        requires { IsEdit self.old.extent e.now }
        ensures reply { IfOk result (λ reply. reply ≡ edit_reply self.old.edits e.now) }
        ensures after { OnOk result (self.new ≡ record { extent = self.old.extent; edits = after_edit self.old.edits e.now }) }
        ensures err { OnErr result (self.new ≡ self.old) }
    {
        match accepted_tick(self.log.rows(), e) {
            Some(tick) => Ok(EditReply::Done(self.log.commit(alloc, e, tick)?)),
            None => Ok(refused(e, self.log.len())),
        }
    }
}
