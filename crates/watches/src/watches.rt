ghost use Rattle.std.specs.Prelude.{◌≡◌, ◌+◌, ◌<◌, ◌≤◌, ◌^◌, [], ◌∷◌, ◌++◌, length, true, false, Err, OnOk, OnErr, IfOk, IfErr};
ghost use Rattle.versions.specs.Versions.{LogValue, IsLog, IsEdit, IsAccepted, accepts, after_edit, current_rows};
ghost use Rattle.watches.specs.Watches.{AreWatches, interval_of, touching, feed_refusal};

use crate::fault::FeedFault;
use crate::interval::Interval;
use crate::lists::{push_each, reserve_each};
use crate::spans::Spans;
use increments::Rows;
use std::alloc::Global;
use std::marker::Model;
use versions::{Edit, EditReply, Stream};
use words::{Memory, Shape};

/// Which versions touch some intervals; seen as the log of the accepted edits, and the intervals.
#[derive(Drop)]
pub struct Watches {
    stream: Stream,
    spans: Spans,
    lists: Vec<Vec<u64>>,
}

impl Model for Watches {
    ghost use Rattle.watches.specs.Watches.{WatchesValue, AreWatches};

    ghost Value = { WatchesValue };

    ghost view = { λ w. record { log = w.stream; intervals = w.spans } };

    ghost invariant = { λ w. AreWatches (record { log = w.stream; intervals = w.spans }) w.lists.items };
}

/// The tick of the row that is edited, where the rows accept the edit.
fn accepted_tick(rows: &Rows, e: &Edit, version: u64) -> Result<u64, FeedFault>
    ensures ok { IfOk result (λ tick. IsAccepted rows.now.rows (record { edit = e.now; tick = tick })) }
    ensures refused { IfErr result (λ fault. fault ≡ feed_refusal e.now version) }
    ensures err { OnErr result (accepts rows.now.rows e.now ≡ false) }
{
    match e {
        Edit::Append { name, tick, .. } => match rows.tick_of(name) {
            None => Ok(*tick),
            Some(_) => Err(FeedFault::NameTaken(version)),
        },
        Edit::Correct { name, .. } => rows.tick_of(name).ok_or(FeedFault::NoRow(version)),
        Edit::Remove { name } => rows.tick_of(name).ok_or(FeedFault::NoRow(version)),
    }
}

/// The next edit: its version goes to the lists of the intervals that hold its tick.
fn take_edit(
    alloc: Global,
    stream: &mut Stream,
    spans: &Spans,
    lists: &mut [Vec<u64>],
    e: &Edit,
) -> Result<u64, FeedFault>
    requires edit { IsEdit stream.old.extent e.now }
    requires kept { AreWatches (record { log = stream.old; intervals = spans.now }) lists.old }
    ensures kept { AreWatches (record { log = stream.new; intervals = spans.now }) lists.new }
    ensures ok { OnOk result (stream.new ≡ record { extent = stream.old.extent; edits = after_edit stream.old.edits e.now }) }
    ensures version { IfOk result (λ v. v ≡ length stream.old.edits + 1) }
    ensures refused { accepts (current_rows stream.old.edits) e.now ≡ false → result ≡ Err (feed_refusal e.now (length stream.old.edits)) }
    ensures accepted { accepts (current_rows stream.old.edits) e.now ≡ true → IfErr result (λ fault. fault ≡ FeedFault.Memory) }
    ensures err { OnErr result (stream.new ≡ stream.old) }
{
    let tick = accepted_tick(stream.rows(), e, stream.version())?;
    let holders = spans.holders_at(tick);
    reserve_each(lists, holders)?;
    match stream.edit(alloc, e)? {
        EditReply::Done(version) => {
            push_each(lists, holders, version);
            Ok(version)
        }
        EditReply::NameTaken(_) | EditReply::NoRow(_) => unreachable!(),
    }
}

impl Watches {
    /// None, and no edits of rows with moves of this shape.
    pub fn new(alloc: Global, shape: Shape) -> Result<Watches, Memory>
        ensures { IfOk result (λ watches. watches ≡ record { log = record { extent = shape; edits = [] }; intervals = [] }) }
    {
        Ok(Watches {
            stream: Stream::new(alloc, shape),
            spans: Spans::of(alloc, Vec::new(alloc))?,
            lists: Vec::new(alloc),
        })
    }

    /// How many watches.
    pub fn len(&self) -> u32
        ensures value { result ≡ length self.now.intervals }
        ensures few { result ≤ 64 }
    {
        self.lists.len() as u32
    }

    /// The current version: how many edits were accepted.
    pub fn version(&self) -> u64
        ensures value { result ≡ length self.now.log.edits }
        ensures log { IsLog self.now.log }
    {
        self.stream.log().len()
    }

    /// One more watch, of the interval from a to before b, in ticks; answers its number, from 1.
    /// Equal intervals are watches of their own. Want of memory leaves the watches as they were.
    pub fn add(&mut self, alloc: Global, a: u64, b: u64) -> Result<u32, Memory>
        requires rises { a ≤ b }
        requires within { b ≤ 2 ^ 32 }
        requires unfed { length self.old.log.edits ≡ 0 }
        requires few { length self.old.intervals < 64 }
        ensures ok { OnOk result (self.new ≡ record { log = self.old.log; intervals = self.old.intervals ++ (record { from = a; to = b }) ∷ [] }) }
        ensures number { IfOk result (λ i. i ≡ length self.old.intervals + 1) }
        ensures err { OnErr result (self.new ≡ self.old) }
    {
        let spans = self.spans.with(alloc, Interval { from: a, to: b })?;
        self.lists.push(Vec::new(alloc))?;
        self.spans = spans;
        Ok(self.lists.len() as u32)
    }

    /// The next edit; answers the version that it makes. `NameTaken` exactly where it appends a live name, and
    /// `NoRow` exactly where it corrects or removes a name that isn't live, with the current version; else
    /// want of memory. Each leaves the watches as they were.
    pub fn feed(&mut self, alloc: Global, e: &Edit) -> Result<u64, FeedFault>
        requires { IsEdit self.old.log.extent e.now }
        ensures ok { OnOk result (self.new ≡ record { log = record { extent = self.old.log.extent; edits = after_edit self.old.log.edits e.now }; intervals = self.old.intervals }) }
        ensures version { IfOk result (λ v. v ≡ length self.old.log.edits + 1) }
        ensures refused { accepts (current_rows self.old.log.edits) e.now ≡ false → result ≡ Err (feed_refusal e.now (length self.old.log.edits)) }
        ensures accepted { accepts (current_rows self.old.log.edits) e.now ≡ true → IfErr result (λ fault. fault ≡ FeedFault.Memory) }
        ensures err { OnErr result (self.new ≡ self.old) }
    {
        take_edit(alloc, &mut self.stream, &self.spans, &mut self.lists, e)
    }

    /// The versions whose edit has its tick in the interval of watch i, rising. The tick of an edit is that of its row.
    pub fn versions_of(&self, i: u32) -> &[u64]
        requires some { 1 ≤ i }
        requires within { i ≤ length self.now.intervals }
        ensures { result.now ≡ touching (interval_of self.now i).from (interval_of self.now i).to self.now.log.edits }
    {
        &self.lists[i as usize - 1]
    }
}
