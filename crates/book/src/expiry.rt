//! Pairs go when their versions ended long ago.
ghost use Rattle.std.specs.Prelude.{◌≡◌, ◌+◌, ◌-◌, ◌<◌, ◌≤◌, ◌&&◌, ◌++◌, [], ◌∷◌, List, length, filter, not, true, nat_le, IfSome, IfNone};
ghost use Rattle.dyadic.specs.Nodes.{low_of, high_of};
ghost use Rattle.versions.specs.declared.log.Accepted.{Accepted};
ghost use Rattle.versions.specs.Versions.{LogValue, touched};
ghost use Rattle.book.specs.Play.{is_past};
ghost use Rattle.book.specs.Books.{AreKept};
ghost use Rattle.book.specs.Expiry.{is_ended, IsTouchedHalf};

use dyadic::Node;
use node_cache::NodeCache;
use versions::{EditLog, LogNode};

/// A pair goes so many edits after the first one that touches its node.
pub(crate) const SPAN: u64 = 64;

/// Takes out the entries whose versions ended long ago, where none had before the last edit. That edit brings this upon nodes that hold
/// the tick of one edit, which are walked from the coarsest one on. Takes no memory.
pub fn drop_past(log: &EditLog, cache: &mut NodeCache)
    requires { (before : List Accepted) → (last : Accepted) → log.now.edits ≡ before ++ last ∷ [] → AreKept (record { extent = log.now.extent; edits = before }) cache.old.entries }
    ensures { cache.new ≡ record { capacity = cache.old.capacity; entries = filter (λ e. not (is_past log.now.edits e.node e.since)) cache.old.entries } }
{
    let version = log.len();
    if version <= SPAN || cache.len() == 0 {
        return;
    }
    let touch = version - SPAN;
    let line = Node::new(0, -16).unwrap();
    let here = log.node_at(line, touch - 1);
    drop_ended(log, cache, &here, touch);
}

/// Takes out the entries that the edit `touch` ended, of this node and those inside it, at the version before that edit, which touches the node.
fn drop_ended(log: &EditLog, cache: &mut NodeCache, here: &LogNode<'_>, touch: u64)
    requires some { 1 ≤ touch }
    requires within { touch ≤ length log.now.edits }
    requires here { (here.now.log ≡ log.now) × (here.now.version ≡ touch - 1) }
    requires touches { touched (low_of here.now.node) (high_of here.now.node) log.now.edits touch ≡ true }
    ensures { cache.new ≡ record { capacity = cache.old.capacity; entries = filter (λ e. not (nat_le e.node.height here.now.node.height && is_ended log.now.edits touch e)) cache.old.entries } }
{
    let node = here.node();
    cache.drop_pair(node, here.since());
    if let Some(half) = half_with(log, node, touch) {
        drop_ended(log, cache, &here.within(half), touch);
    }
}

/// The half of a node that holds the tick of this edit, which the node holds.
fn half_with(log: &EditLog, node: Node, touch: u64) -> Option<Node>
    requires some { 1 ≤ touch }
    requires within { touch ≤ length log.now.edits }
    requires touches { touched (low_of node) (high_of node) log.now.edits touch ≡ true }
    ensures half { IfSome result (IsTouchedHalf log.now.edits touch node) }
    ensures none { IfNone result (node.height ≡ 0) }
{
    let left = node.left()?;
    if log.touches(left, touch) {
        return Some(left);
    }
    node.right()
}
