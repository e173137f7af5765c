ghost use Rattle.std.specs.Prelude.{◌≡◌, ◌+◌, ◌-◌, ◌%◌, ◌<◌, ◌≤◌, ◌^◌, ℕ, [], ◌∷◌, ◌++◌, All, length, false, OnOk, OnErr, IfOk, IfSome, IfNone};
ghost use Rattle.definitions.specs.Moves.{IsMove};
ghost use Rattle.increments.specs.Edits.{IsInOrder};
ghost use Rattle.dyadic.specs.Nodes.{low_of, high_of};
ghost use Rattle.versions.specs.Versions.{IsLog, IsEdit, IsAccepted, IsFirstTouch, current_rows, touched, rows_at as rows_at_version, since as since_version};
ghost use Rattle.versions.specs.Streams.{rows_of};

use crate::edit::Edit;
use crate::log_node::LogNode;
use crate::record::take_edit;
use crate::replay::replay;
use dyadic::Node;
use increments::Rows;
use std::alloc::Global;
use std::marker::Model;
use timeline::{RowsView, Timeline};
use words::{Memory, Shape};

/// An edit that was accepted, with the tick of its row.
#[derive(Drop)]
pub struct Accepted {
    pub edit: Edit,
    pub tick: u64,
}

/// The accepted edits of a stream, seen as the list of them, with the shape of their moves.
/// Beside them stand the rows of each version and, by name too, those of the current one.
#[derive(Drop)]
pub struct EditLog {
    shape: Shape,
    edits: Vec<Accepted>,
    line: Timeline,
    rows: Rows,
}

impl Model for EditLog {
    ghost use Rattle.versions.specs.Versions.{LogValue};
    ghost use Rattle.versions.specs.Pasts.{IsKept};

    ghost Value = { LogValue };

    ghost view = { λ l. record { extent = l.shape; edits = l.edits.items } };

    ghost invariant = { λ l. IsKept (record { extent = l.shape; edits = l.edits.items }) l.line l.rows };
}

impl EditLog {
    /// No edits of rows with moves of this shape. Takes no memory.
    pub fn new(alloc: Global, shape: Shape) -> EditLog
        ensures { result ≡ record { extent = shape; edits = [] } }
    {
        EditLog {
            shape,
            edits: Vec::new(alloc),
            line: Timeline::new(alloc),
            rows: Rows::new(alloc, shape),
        }
    }

    /// The shape of the moves.
    pub fn shape(&self) -> Shape
        ensures value { result ≡ self.now.extent }
        ensures log { IsLog self.now }
    {
        self.shape
    }

    /// How many edits were accepted, which is the current version.
    pub fn len(&self) -> u64
        ensures value { result ≡ length self.now.edits }
        ensures bound { result < 2 ^ 63 }
        ensures log { IsLog self.now }
    {
        self.edits.len() as u64
    }

    /// The rows of the current version.
    pub fn rows(&self) -> &Rows
        ensures value { result.now ≡ rows_of self.now }
        ensures log { IsLog self.now }
    {
        &self.rows
    }

    /// The edits alone. Takes no memory.
    pub fn into_edits(self) -> Vec<Accepted>
        ensures value { result.items ≡ self.edits }
        ensures log { IsLog self }
    {
        self.edits
    }

    /// A copy of this edit, which the current rows accept, is the last one from now on; its row has this tick.
    /// Answers the version that it makes. Want of memory, or of numbers for versions, leaves the log as it was.
    pub fn commit(&mut self, alloc: Global, e: &Edit, tick: u64) -> Result<u64, Memory>
        requires edit { IsEdit self.old.extent e.now }
        requires tick { tick < 2 ^ 32 }
        requires accepted { IsAccepted (current_rows self.old.edits) (record { edit = e.now; tick = tick }) }
        ensures ok { OnOk result (self.new ≡ record { extent = self.old.extent; edits = self.old.edits ++ (record { edit = e.now; tick = tick }) ∷ [] }) }
        ensures version { IfOk result (λ v. v ≡ length self.old.edits + 1) }
        ensures err { OnErr result (self.new ≡ self.old) }
    {
        let version = self.edits.len() as u64 + 1;
        if version >= 1 << 31 {
            return Err(Memory);
        }
        take_edit(
            alloc,
            &mut self.edits,
            &mut self.line,
            &mut self.rows,
            e,
            tick,
        )?;
        Ok(version)
    }

    /// The rows of version v, made from the first v edits in O(v log v) steps.
    pub fn rows_at(&self, alloc: Global, v: u64) -> Result<Rows, Memory>
        requires { v ≤ length self.now.edits }
        ensures { IfOk result (λ rows. rows ≡ record { extent = self.now.extent; rows = rows_at_version self.now.edits v }) }
    {
        replay(alloc, self.shape, &self.edits[..v as usize])
    }

    /// The rows of version v, by reference. Takes no memory.
    pub fn view_at(&self, v: u64) -> RowsView<'_>
        requires { v ≤ length self.now.edits }
        ensures value { result ≡ rows_at_version self.now.edits v }
        ensures order { IsInOrder (rows_at_version self.now.edits v) }
        ensures moves { All (λ row. IsMove self.now.extent row.x) (rows_at_version self.now.edits v) }
        ensures few { length (rows_at_version self.now.edits v) < 2 ^ 63 }
    {
        RowsView::of(&self.line, v)
    }

    /// The last version up to v that is a multiple of 1024, with its rows, by reference. Takes no memory.
    pub fn rows_near(&self, v: u64) -> (u64, RowsView<'_>)
        requires { v ≤ length self.now.edits }
        ensures near { result.0 ≡ v - v % 1024 }
        ensures rows { result.1 ≡ rows_at_version self.now.edits (v - v % 1024) }
    {
        let near = v - v % 1024;
        (near, self.view_at(near))
    }

    /// The rows of version v in the node, by reference. Takes no memory.
    pub fn node_at(&self, node: Node, v: u64) -> LogNode<'_>
        requires { v ≤ length self.now.edits }
        ensures { result ≡ record { log = self.now; version = v; node = node } }
    {
        LogNode::of(self, self.line.node_view(node, v))
    }

    /// The last version from 1 to v whose edit has its tick in the node, or 0 where there is none.
    pub fn since(&self, node: Node, v: u64) -> u64
        requires { v ≤ length self.now.edits }
        ensures { result ≡ since_version (low_of node) (high_of node) self.now.edits v }
    {
        self.line.since(node, v)
    }

    /// Whether the edit that makes version t has its tick in the node.
    pub fn touches(&self, node: Node, t: u64) -> bool
        requires some { 1 ≤ t }
        requires within { t ≤ length self.now.edits }
        ensures { result ≡ touched (low_of node) (high_of node) self.now.edits t }
    {
        node.holds(self.edits[t as usize - 1].tick)
    }

    /// The first version after v whose edit has its tick in the node, `None` where there is none.
    pub fn touched_since(&self, v: u64, node: Node) -> Option<u64>
        requires { v ≤ length self.now.edits }
        ensures some { IfSome result (λ t. IsFirstTouch (low_of node) (high_of node) self.now.edits v t) }
        ensures none { IfNone result ((t : ℕ) → v < t → t ≤ length self.now.edits → touched (low_of node) (high_of node) self.now.edits t ≡ false) }
    {
        self.line.touched_since(v, node)
    }
}
