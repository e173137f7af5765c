//! The plans of a query, or why it has no answer.
ghost use Rattle.std.specs.Prelude.{◌≡◌, ◌+◌, ◌≤◌, List, Option, length, IfOk, OnOk};
ghost use Rattle.versions.specs.Versions.{LogValue, rows_at};
ghost use Rattle.book.specs.Books.{AreKept, held};
ghost use Rattle.book.specs.Play.{refused_by, looked_version, PendingLook};
ghost use Rattle.book.specs.Looks.{IsQuery, IsPlanned, look_visits};
ghost use Rattle.book.specs.VersionRows.{AreVersionRows};

use crate::query::{Allowed, Query};
use crate::step::LookReply;
use crate::walk::plans_of;
use decompose::round;
use node_cache::NodeCache;
use solve::Plan;
use std::alloc::Global;
use versions::{EditLog, RowsView, Stream};
use words::{Ledger, Memory, Steps};

/// The plans of a query, or why it has no answer.
#[derive(Drop)]
pub enum Planned {
    Refused(LookReply),
    Plans(Vec<Plan>),
}

/// Why rows of this weight have no answer, `None` where they have one.
fn refusal(allowed: &Allowed, weight: u128) -> Option<LookReply>
    ensures { result ≡ refused_by allowed.now weight }
{
    match allowed {
        Allowed::Pair(a, b) => Some(LookReply::Pair(*a, *b)),
        Allowed::Level(k) => Some(LookReply::Level(*k)),
        Allowed::Fits(bound) => {
            if bound.fits(weight) {
                None
            } else {
                Some(LookReply::Overflow(weight))
            }
        }
    }
}

/// The plans of a query at the version that it asks for, which has these rows.
fn planned_at<L: Ledger>(
    alloc: Global,
    rows: &RowsView<'_>,
    log: &EditLog,
    cache: &NodeCache,
    version: u64,
    q: &Query,
    steps: &mut Steps<L>,
) -> Result<Planned, Memory>
    requires query { IsQuery q.now }
    requires version { version ≤ length log.now.edits }
    requires looked { looked_version log.now.edits q.now ≡ version }
    requires rows { rows.now ≡ rows_at log.now.edits version }
    requires version_rows { AreVersionRows log.now.extent (rows_at log.now.edits version) }
    requires kept { AreKept log.now cache.now.entries }
    ensures planned { (pending : List (Option PendingLook)) → IfOk result (IsPlanned log.now.extent (record { edits = log.now.edits; pairs = held cache.now.entries; pending = pending }) q.now) }
    ensures ticks { (pending : List (Option PendingLook)) → OnOk result (steps.new ≡ steps.old + look_visits (record { edits = log.now.edits; pairs = held cache.now.entries; pending = pending }) q.now) }
    ensures at_most { (pending : List (Option PendingLook)) → (steps.old ≤ steps.new) × (steps.new ≤ steps.old + look_visits (record { edits = log.now.edits; pairs = held cache.now.entries; pending = pending }) q.now) }
    ensures rows { IfOk result (λ planned. looked_version log.now.edits q.now ≤ length log.now.edits → AreVersionRows log.now.extent (rows_at log.now.edits (looked_version log.now.edits q.now))) }
{
    let (from, to) = round(q.from, q.to, q.r);
    if let Some(reply) = refusal(&q.allowed, rows.weight_in(from, to)) {
        return Ok(Planned::Refused(reply));
    }
    let plans = plans_of(alloc, log, cache, version, from, to, steps)?;
    Ok(Planned::Plans(plans))
}

/// The plans of a query. Takes one unit for each visited node, and after want of memory at most so many.
pub fn planned_look<L: Ledger>(
    alloc: Global,
    stream: &Stream,
    cache: &NodeCache,
    q: &Query,
    steps: &mut Steps<L>,
) -> Result<Planned, Memory>
    requires query { IsQuery q.now }
    requires kept { AreKept stream.now cache.now.entries }
    ensures planned { (pending : List (Option PendingLook)) → IfOk result (IsPlanned stream.now.extent (record { edits = stream.now.edits; pairs = held cache.now.entries; pending = pending }) q.now) }
    ensures ticks { (pending : List (Option PendingLook)) → OnOk result (steps.new ≡ steps.old + look_visits (record { edits = stream.now.edits; pairs = held cache.now.entries; pending = pending }) q.now) }
    ensures at_most { (pending : List (Option PendingLook)) → (steps.old ≤ steps.new) × (steps.new ≤ steps.old + look_visits (record { edits = stream.now.edits; pairs = held cache.now.entries; pending = pending }) q.now) }
    ensures rows { IfOk result (λ planned. looked_version stream.now.edits q.now ≤ length stream.now.edits → AreVersionRows stream.now.extent (rows_at stream.now.edits (looked_version stream.now.edits q.now))) }
{
    let log = stream.log();
    let Some(version) = q.version else {
        let version = log.len();
        let rows = log.view_at(version);
        return planned_at(alloc, &rows, log, cache, version, q, steps);
    };
    if version > stream.version() {
        return Ok(Planned::Refused(LookReply::NoVersion(stream.version())));
    }
    let rows = log.view_at(version);
    planned_at(alloc, &rows, log, cache, version, q, steps)
}
