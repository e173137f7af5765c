ghost use Rattle.std.specs.Prelude.{◌≡◌, ◌+◌, ◌≤◌, [], false, true, length, is_some, IfOk, OnOk, OnErr};
ghost use Rattle.versions.specs.Versions.{IsEdit, IsLog, edit_reply};
ghost use Rattle.book.specs.Play.{Editing, Looking, Settling, pending_of, settled_of};
ghost use Rattle.book.specs.Looks.{IsQuery, AllowsSignatures, IsLook, look_visits};
ghost use Rattle.book.specs.Books.{IsBook, IsSession, IsReady, IsFree, IsSettledBy, state_of, log_of, with_request};

use crate::look::Look;
use crate::pending::Pending;
use crate::query::Query;
use crate::step::Step;
use crate::{edit_step, look_step, settle_step};
use node_cache::NodeCache;
use solve::Solved;
use std::alloc::Global;
use std::marker::Model;
use versions::{Accepted, Edit, EditReply, Stream};
use words::{Capacity, Ledger, Memory, Shape, Steps};

/// The edits, looks and settles of 1 to 16 sessions, one after another, over one stream and one cache of nodes. Seen as the list of the
/// steps that were taken, from which all that it keeps can be told.
///
/// A look is pending where it misses a node with rows; its session settles it next. A book whose settle wanted memory is spent, and takes
/// no more steps.
#[derive(Drop)]
pub struct Book {
    stream: Stream,
    cache: NodeCache,
    pending: Vec<Option<Pending>>,
    history: Vec<Step>,
    spent: bool,
}

impl Model for Book {
    ghost use Rattle.std.specs.Prelude.{◌≡◌, length, false};
    ghost use Rattle.book.specs.Books.{BookValue, IsBook, IsHeld};

    ghost Value = { BookValue };

    ghost view = { λ b. record { extent = b.stream.extent; capacity = b.cache.capacity; sessions = length b.pending.items; history = b.history.items; spent = b.spent } };

    ghost invariant = { λ b. IsHeld b.stream b.cache b.pending.items b.history.items b.spent };
}

impl Book {
    /// A book without steps. Its cache keeps so many nodes at most, from 1 to 16,384.
    pub fn new(
        alloc: Global,
        shape: Shape,
        capacity: Capacity,
        sessions: u32,
    ) -> Result<Book, Memory>
        requires one { 1 ≤ sessions }
        requires few { sessions ≤ 16 }
        ensures { IfOk result (λ b. b ≡ record { extent = shape; capacity = capacity; sessions = sessions; history = []; spent = false }) }
    {
        let _nodes = capacity.get();
        let cache = NodeCache::new(alloc, capacity)?;
        let mut pending = Vec::new(alloc);
        for _session in 0..sessions {
            pending.push(None)?;
        }
        Ok(Book {
            stream: Stream::new(alloc, shape),
            cache,
            pending,
            history: Vec::new(alloc),
            spent: false,
        })
    }

    /// The current version.
    pub fn version(&self) -> u64
        ensures value { result ≡ length (state_of self.now).edits }
        ensures book { IsBook self.now }
    {
        self.stream.version()
    }

    /// Whether the session has a pending look.
    pub fn pending(&self, session: u32) -> bool
        requires { IsSession self.now.sessions session }
        ensures { result ≡ is_some (pending_of session (state_of self.now).pending) }
    {
        self.pending[session as usize - 1].is_some()
    }

    /// Whether a settle wanted memory.
    pub fn spent(&self) -> bool
        ensures { result ≡ self.now.spent }
    {
        self.spent
    }

    /// The steps that were taken, each with its reply.
    pub fn history(&self) -> &[Step]
        ensures { result.now ≡ self.now.history }
    {
        &self.history
    }

    /// Edits the stream. Want of memory leaves the book as it was.
    pub fn edit(&mut self, alloc: Global, session: u32, e: &Edit) -> Result<EditReply, Memory>
        requires ready { IsReady self.old session }
        requires free { IsFree self.old session }
        requires edit { IsEdit self.old.extent e.now }
        ensures reply { IfOk result (λ reply. reply ≡ edit_reply (state_of self.old).edits e.now) }
        ensures ok { OnOk result (self.new ≡ with_request (Editing session e.now) self.old) }
        ensures err { OnErr result (self.new ≡ self.old) }
    {
        edit_step::edit(
            alloc,
            &mut self.stream,
            &mut self.cache,
            &mut self.history,
            session,
            e,
        )
    }

    /// Looks at the current version or at the named one. Takes one unit for each visited node, and after want of memory at most so many;
    /// that leaves the book as it was.
    pub fn look<L: Ledger>(
        &mut self,
        alloc: Global,
        session: u32,
        q: Query,
        steps: &mut Steps<L>,
    ) -> Result<Look, Memory>
        requires ready { IsReady self.old session }
        requires free { IsFree self.old session }
        requires query { IsQuery q }
        requires allowed { AllowsSignatures self.old.extent q.allowed }
        ensures look { IfOk result (IsLook self.old.extent (state_of self.old) q) }
        ensures ok { OnOk result (self.new ≡ with_request (Looking session q) self.old) }
        ensures ticks { OnOk result (steps.new ≡ steps.old + look_visits (state_of self.old) q) }
        ensures at_most { (steps.old ≤ steps.new) × (steps.new ≤ steps.old + look_visits (state_of self.old) q) }
        ensures err { OnErr result (self.new ≡ self.old) }
    {
        look_step::look(
            alloc,
            &self.stream,
            &mut self.cache,
            &mut self.pending,
            &mut self.history,
            session,
            q,
            steps,
        )
    }

    /// Keeps the nodes that the session's pending look missed, with their signatures. Answers how many it kept, those that were dropped
    /// again included. Want of memory leaves the stream and the steps as they were, and the book is spent.
    pub fn settle(&mut self, session: u32, solved: &Solved) -> Result<u64, Memory>
        requires ready { IsReady self.old session }
        requires settled { IsSettledBy (log_of self.old) (pending_of session (state_of self.old).pending) solved.now.nodes.items }
        ensures count { IfOk result (λ count. count ≡ length (settled_of (state_of self.old).edits (pending_of session (state_of self.old).pending))) }
        ensures ok { OnOk result (self.new ≡ with_request (Settling session) self.old) }
        ensures err { OnErr result (self.new ≡ record self.old { spent = true }) }
    {
        let settled = settle_step::settle(
            self.stream.log(),
            &mut self.cache,
            &mut self.pending,
            &mut self.history,
            session,
            solved,
        );
        self.spent = settled.is_err();
        settled
    }

    /// The accepted edits with the ticks of their rows, in order. What else the book keeps is dropped. Takes no memory.
    pub fn into_edits(self) -> Vec<Accepted>
        ensures value { result.items ≡ (state_of self).edits }
        ensures log { IsLog (log_of self) }
    {
        self.stream.into_edits()
    }
}
