ghost use Rattle.std.specs.Prelude.{◌≡◌, ◌<◌, ◌≤◌, length, IfOk, SomeIff};
ghost use Rattle.definitions.specs.Rows.{rows_in};
ghost use Rattle.dyadic.specs.Nodes.{low_of, high_of, left_of, right_of, LiesWithin};
ghost use Rattle.versions.specs.Versions.{IsLog, rows_at, since as since_version};
ghost use Rattle.versions.specs.LogNodes.{IsViewOf, log_node};

use crate::log::EditLog;
use dyadic::Node;
use increments::RowList;
use std::alloc::Global;
use std::marker::Model;
use timeline::NodeView;
use words::Memory;

/// The rows of one version of a log in a dyadic node, by reference. Its halves are one step away.
#[derive(Drop)]
pub struct LogNode<'a> {
    log: &'a EditLog,
    view: NodeView<'a>,
}

impl<'a> Model for LogNode<'a> {
    ghost use Rattle.versions.specs.LogNodes.{LogNodeValue, IsViewOf, log_node};

    ghost Value = { LogNodeValue };

    ghost view = { λ n. log_node n.log.now n.view };

    ghost invariant = { λ n. IsViewOf n.log.now n.view };
}

impl<'a> LogNode<'a> {
    /// What the view sees of the log.
    pub(crate) fn of(log: &'a EditLog, view: NodeView<'a>) -> LogNode<'a>
        requires { IsViewOf log.now view }
        ensures { result ≡ log_node log.now view.entry }
    {
        LogNode { log, view }
    }

    /// The node.
    pub fn node(&self) -> Node
        ensures value { result ≡ self.now.node }
        ensures log { IsLog self.now.log }
        ensures within { self.now.version ≤ length self.now.log.edits }
    {
        self.view.node()
    }

    /// The last version from 1 on, up to this one, whose edit has its tick in the node, or 0 where there is none.
    pub fn since(&self) -> u64
        ensures { result ≡ since_version (low_of self.now.node) (high_of self.now.node) self.now.log.edits self.now.version }
    {
        self.view.since()
    }

    /// How many rows lie in the node.
    pub fn count(&self) -> u64
        ensures { result ≡ length (rows_in (low_of self.now.node) (high_of self.now.node) (rows_at self.now.log.edits self.now.version)) }
    {
        self.view.count()
    }

    /// Equal rows to those in the node.
    pub fn copy(&self, alloc: Global) -> Result<RowList, Memory>
        ensures { IfOk result (λ list. list ≡ rows_in (low_of self.now.node) (high_of self.now.node) (rows_at self.now.log.edits self.now.version)) }
    {
        self.view.copy(alloc)
    }

    /// The rows of the version in a node within this one.
    pub fn within(&self, inner: Node) -> LogNode<'a>
        requires { LiesWithin (low_of self.now.node) (high_of self.now.node) inner }
        ensures { result ≡ record { log = self.now.log; version = self.now.version; node = inner } }
    {
        LogNode::of(self.log, self.view.within(inner))
    }

    /// The rows in the earlier half; a node of one tick has none.
    pub fn left(&self) -> Option<LogNode<'a>>
        ensures { SomeIff result (0 < self.now.node.height) (record { log = self.now.log; version = self.now.version; node = left_of self.now.node }) }
    {
        let half = self.view.left()?;
        Some(LogNode::of(self.log, half))
    }

    /// The rows in the later half; a node of one tick has none.
    pub fn right(&self) -> Option<LogNode<'a>>
        ensures { SomeIff result (0 < self.now.node.height) (record { log = self.now.log; version = self.now.version; node = right_of self.now.node }) }
    {
        let half = self.view.right()?;
        Some(LogNode::of(self.log, half))
    }
}
