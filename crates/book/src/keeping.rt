//! Solved nodes are kept.
ghost use Rattle.std.specs.Prelude.{◌≡◌, ◌≤◌, All, length, map, IfOk, OnOk};
ghost use Rattle.dyadic.specs.Nodes.{IsNode};
ghost use Rattle.versions.specs.Versions.{IsLog};
ghost use Rattle.book.specs.Play.{settled_nodes, with_settled, is_past as is_past_at};
ghost use Rattle.book.specs.Plans.{HasSignature};
ghost use Rattle.std.specs.Arc.{arc_value};
ghost use Rattle.book.specs.Books.{AreKept, held};

use crate::expiry::SPAN;
use dyadic::Node;
use node_cache::NodeCache;
use solve::SolvedNode;
use std::sync::Arc;
use versions::EditLog;
use words::Memory;

/// Whether an edit after the version touched the node, and that more than 63 edits ago.
fn is_past(log: &EditLog, version: u64, node: Node) -> bool
    requires { version ≤ length log.now.edits }
    ensures value { result ≡ is_past_at log.now.edits node version }
    ensures log { IsLog log.now }
{
    let ended = log.len().saturating_sub(SPAN);
    if version >= ended {
        return false;
    }
    log.since(node, ended) > version
}

/// Keeps the signatures of the nodes at a version, but those whose versions ended long ago; answers how many it kept.
pub fn settle_nodes(
    log: &EditLog,
    cache: &mut NodeCache,
    version: u64,
    solved: &[SolvedNode],
) -> Result<u64, Memory>
    requires version { version ≤ length log.now.edits }
    requires nodes { All (λ s. IsNode s.node) solved.now }
    requires signatures { All (λ s. HasSignature log.now.extent log.now.edits version s.node (arc_value s.sig)) solved.now }
    requires kept { AreKept log.now cache.old.entries }
    ensures count { IfOk result (λ count. count ≡ length (settled_nodes log.now.edits version (map (λ s. s.node) solved.now))) }
    ensures pairs { OnOk result (held cache.new.entries ≡ with_settled cache.old.capacity log.now.edits version (settled_nodes log.now.edits version (map (λ s. s.node) solved.now)) (held cache.old.entries)) }
    ensures kept { AreKept log.now cache.new.entries }
    ensures capacity { cache.new.capacity ≡ cache.old.capacity }
{
    let mut count: u64 = 0;
    for s in solved {
        if !is_past(log, version, s.node) {
            cache.keep(s.node, log.since(s.node, version), Arc::try_clone(&s.sig)?)?;
            count += 1;
        }
    }
    Ok(count)
}
