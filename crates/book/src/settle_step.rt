//! A step that settles a look.
ghost use Rattle.std.specs.Prelude.{◌≡◌, ◌≤◌, ◌++◌, ◌∷◌, [], List, Option, None, Some, length, slice_set, IfOk, OnOk, OnErr};
ghost use Rattle.book.specs.declared.step.Step.TheVariants.{Settled};
ghost use Rattle.book.specs.Play.{PendingLook, pending_of, pending_with, settled_of, pairs_settled};
ghost use Rattle.book.specs.Plans.{IsSettlement};
ghost use Rattle.book.specs.Books.{AreKept, ArePending, IsSession, IsSettledBy, held};

use crate::keeping::settle_nodes;
use crate::pending::Pending;
use crate::step::Step;
use node_cache::NodeCache;
use solve::Solved;
use versions::EditLog;
use words::Memory;

/// Settles the look of a session, with its step. After want of memory the cache may have lost entries and have others.
pub fn settle(
    log: &EditLog,
    cache: &mut NodeCache,
    pending: &mut Vec<Option<Pending>>,
    history: &mut Vec<Step>,
    session: u32,
    solved: &Solved,
) -> Result<u64, Memory>
    requires session { IsSession (length pending.old.items) session }
    requires looks { ArePending log.now.edits pending.old.items }
    requires settled { IsSettledBy log.now (pending_of session pending.old.items) solved.now.nodes.items }
    requires kept { AreKept log.now cache.old.entries }
    ensures count { IfOk result (λ count. count ≡ length (settled_of log.now.edits (pending_of session pending.old.items))) }
    ensures pairs { OnOk result (held cache.new.entries ≡ pairs_settled cache.old.capacity log.now.edits (pending_of session pending.old.items) (held cache.old.entries)) }
    ensures kept { AreKept log.now cache.new.entries }
    ensures capacity { cache.new.capacity ≡ cache.old.capacity }
    ensures pending { OnOk result (pending.new.items ≡ pending_with session None pending.old.items) }
    ensures looks { ArePending log.now.edits pending.new.items }
    ensures history { OnOk result (history.new.items ≡ history.old.items ++ Settled session (length (settled_of log.now.edits (pending_of session pending.old.items))) ∷ []) }
    ensures err { OnErr result ((pending.new.items ≡ pending.old.items) × (history.new.items ≡ history.old.items)) }
{
    history.reserve(1)?;
    let at = session as usize - 1;
    let Some(look) = &pending[at] else {
        unreachable!();
    };
    let count = settle_nodes(log, cache, look.version(), &solved.nodes)?;
    pending[at] = None;
    history.push_reserved(Step::Settled(session, count));
    Ok(count)
}
