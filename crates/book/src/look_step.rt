//! A step that looks at a version.
ghost use Rattle.std.specs.Prelude.{◌≡◌, ℕ, ◌+◌, ◌^◌, ◌≤◌, ◌++◌, ◌∷◌, [], All, Some, length, IfOk, OnOk, OnErr};
ghost use Rattle.definitions.specs.Words.{Extent};
ghost use Rattle.definitions.specs.Signature.{limit};
ghost use Rattle.solve.specs.Plans.{IsValid, total_weight};
ghost use Rattle.book.specs.declared.query.Query.{Query as AnyQuery};
ghost use Rattle.book.specs.declared.step.LookReply.TheVariants.{Found};
ghost use Rattle.book.specs.declared.step.Step.TheVariants.{Looked};
ghost use Rattle.book.specs.Play.{State, look_refusal, pending_look, after_looking, look_reply};
ghost use Rattle.book.specs.Looks.{IsQuery, AllowsSignatures, IsLook, look_visits};
ghost use Rattle.book.specs.Books.{AreKept, ArePending, IsSession, held};

use crate::hits::bring_hits;
use crate::look::Look;
use crate::missed::missed_nodes;
use crate::pending::Pending;
use crate::planning::{Planned, planned_look};
use crate::query::Query;
use crate::step::{LookReply, Step};
use dyadic::Node;
use node_cache::NodeCache;
use solve::{Plan, Work};
use std::alloc::Global;
use versions::Stream;
use words::{Ledger, Memory, Shape, Steps};

/// What a refused look gives.
fn refused(reply: LookReply) -> Look
    requires { (version hits misses exps : ℕ) → reply ≡ Found version hits misses exps → ⊥ }
    ensures { (extent : Extent) (state : State) (q : AnyQuery) → look_refusal state.edits q ≡ Some reply → IsLook extent state q result }
{
    match reply {
        LookReply::NoVersion(version) => Look::NoVersion(version),
        LookReply::Pair(a, b) => Look::Pair(a, b),
        LookReply::Level(k) => Look::Level(k),
        LookReply::Overflow(weight) => Look::Overflow(weight),
        LookReply::Found { .. } => unreachable!(),
    }
}

/// The work of valid plans whose weight fits.
fn work_of(shape: Shape, version: u64, plans: Vec<Plan>) -> Work
    requires valid { All (IsValid shape) plans.items }
    requires fits { total_weight plans.items ^ shape.depth ≤ limit }
    ensures { result ≡ record { extent = shape; version = version; plans = plans.items } }
{
    prove!(shape.depth() >= 1);
    match Work::of(shape, version, plans) {
        Ok(work) => work,
        Err(_) => unreachable!(),
    }
}

/// What is pending after a look that missed these nodes.
fn pending_of(version: u64, missed: Vec<Node>) -> Option<Pending>
    ensures { result ≡ pending_look version missed.items }
{
    if missed.is_empty() {
        None
    } else {
        Some(Pending::new(version, missed))
    }
}

/// A look, with its step. Takes one unit for each visited node, and after want of memory at most so many; that leaves all else as it was.
pub fn look<L: Ledger>(
    alloc: Global,
    stream: &Stream,
    cache: &mut NodeCache,
    pending: &mut Vec<Option<Pending>>,
    history: &mut Vec<Step>,
    session: u32,
    q: Query,
    steps: &mut Steps<L>,
) -> Result<Look, Memory>
    requires session { IsSession (length pending.old.items) session }
    requires query { IsQuery q }
    requires allowed { AllowsSignatures stream.now.extent q.allowed }
    requires looks { ArePending stream.now.edits pending.old.items }
    requires kept { AreKept stream.now cache.old.entries }
    ensures look { IfOk result (IsLook stream.now.extent (record { edits = stream.now.edits; pairs = held cache.old.entries; pending = pending.old.items }) q) }
    ensures state { OnOk result (record { edits = stream.now.edits; pairs = held cache.new.entries; pending = pending.new.items } ≡ after_looking session q (record { edits = stream.now.edits; pairs = held cache.old.entries; pending = pending.old.items })) }
    ensures history { OnOk result (history.new.items ≡ history.old.items ++ Looked session q (look_reply (record { edits = stream.now.edits; pairs = held cache.old.entries; pending = pending.old.items }) q) ∷ []) }
    ensures kept { AreKept stream.now cache.new.entries }
    ensures looks { ArePending stream.now.edits pending.new.items }
    ensures count { length pending.new.items ≡ length pending.old.items }
    ensures capacity { cache.new.capacity ≡ cache.old.capacity }
    ensures ticks { OnOk result (steps.new ≡ steps.old + look_visits (record { edits = stream.now.edits; pairs = held cache.old.entries; pending = pending.old.items }) q) }
    ensures at_most { (steps.old ≤ steps.new) × (steps.new ≤ steps.old + look_visits (record { edits = stream.now.edits; pairs = held cache.old.entries; pending = pending.old.items }) q) }
    ensures err { OnErr result ((cache.new ≡ cache.old) × (pending.new.items ≡ pending.old.items) × (history.new.items ≡ history.old.items)) }
{
    history.reserve(1)?;
    let plans = match planned_look(alloc, stream, cache, &q, steps)? {
        Planned::Refused(reply) => {
            history.push_reserved(Step::Looked(session, q, reply));
            return Ok(refused(reply));
        }
        Planned::Plans(plans) => plans,
    };
    let version = q.version.unwrap_or(stream.version());
    let missed = missed_nodes(alloc, &plans)?;
    let log = stream.log();
    bring_hits(log, cache, version, &plans);
    let work = work_of(log.shape(), version, plans);
    pending[session as usize - 1] = pending_of(version, missed);
    let reply = LookReply::Found {
        version,
        hits: work.hits(),
        misses: work.misses(),
        exps: work.exps(),
    };
    history.push_reserved(Step::Looked(session, q, reply));
    Ok(Look::Work(work))
}
