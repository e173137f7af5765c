//! The hits of a look go to the front of the cache.
ghost use Rattle.std.specs.Prelude.{◌≡◌, ◌≤◌, length, List};
ghost use Rattle.book.specs.Walks.{Visit, hits_of, all_hits};
ghost use Rattle.book.specs.Play.{with_hits};
ghost use Rattle.book.specs.Plans.{IsPlanOf, ArePlansOf};
ghost use Rattle.book.specs.Books.{AreKept, held};
ghost use Rattle.book.specs.Hits.{AllHeld};

use node_cache::NodeCache;
use solve::Plan;
use versions::EditLog;

/// Brings the hits of a plan to the front, in the order of the visits.
fn bring_hits_of(log: &EditLog, cache: &mut NodeCache, version: u64, plan: &Plan)
    requires version { version ≤ length log.now.edits }
    requires kept { AreKept log.now cache.old.entries }
    ensures pairs { (visit : Visit) → IsPlanOf log.now.extent log.now.edits version visit plan.now → AllHeld log.now.edits version (hits_of visit) cache.old.entries
        → held cache.new.entries ≡ with_hits log.now.edits version (hits_of visit) (held cache.old.entries) }
    ensures kept { AreKept log.now cache.new.entries }
    ensures capacity { cache.new.capacity ≡ cache.old.capacity }
{
    match plan {
        Plan::Hit(node, _) => {
            cache.find(*node, log.since(*node, version));
        }
        Plan::Unit(_) => {}
        Plan::Leaf(_, _) => {}
        Plan::Split(_, left, right) => {
            bring_hits_of(log, cache, version, left);
            bring_hits_of(log, cache, version, right);
        }
    }
}

/// Brings the hits of plans to the front, in the order of the visits. Takes no memory.
pub fn bring_hits(log: &EditLog, cache: &mut NodeCache, version: u64, plans: &[Plan])
    requires version { version ≤ length log.now.edits }
    requires kept { AreKept log.now cache.old.entries }
    ensures pairs { (visits : List Visit) → ArePlansOf log.now.extent log.now.edits version visits plans.now → AllHeld log.now.edits version (all_hits visits) cache.old.entries
        → held cache.new.entries ≡ with_hits log.now.edits version (all_hits visits) (held cache.old.entries) }
    ensures kept { AreKept log.now cache.new.entries }
    ensures capacity { cache.new.capacity ≡ cache.old.capacity }
{
    for plan in plans {
        bring_hits_of(log, cache, version, plan);
    }
}
