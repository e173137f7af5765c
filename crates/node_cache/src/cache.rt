ghost use Rattle.std.specs.Prelude.{◌≡◌, ◌≤◌, [], length, is_some, IfOk, OnOk, OnErr};
ghost use Rattle.std.specs.Option.{option_map};
ghost use Rattle.std.specs.Bool.{OnFalse};
ghost use Rattle.std.specs.Arc.{arc_value};
ghost use Rattle.node_cache.specs.Entries.{IsCache, entry_of, sig_of, promoted, kept, without_pair};

use dyadic::Node;
use lru::LruCache;
use std::alloc::Global;
use std::marker::Model;
use std::num::NonZeroUsize;
use std::sync::Arc;
use tensor_product::Sig;
use words::{Capacity, Memory};

/// The signatures of the nodes that were used most recently, each under its node and the version
/// from which on it is that of the node's rows. Seen as the list of its entries, the most recent
/// first, and how many there may be: from 1 to 16,384.
///
/// A call takes O(1) steps on average. The signatures are shared, and stay as they are for those
/// that share them when their entries go.
#[derive(Drop)]
pub struct NodeCache {
    signatures: LruCache<(Node, u64), Arc<Sig>>,
}

impl Model for NodeCache {
    ghost use Rattle.node_cache.specs.Entries.{CacheValue, IsCache, cache_of};

    ghost Value = { CacheValue };

    ghost view = { λ c. cache_of c.signatures };

    ghost invariant = { λ c. IsCache (cache_of c.signatures) };
}

impl NodeCache {
    /// A cache without entries.
    pub fn new(alloc: Global, capacity: Capacity) -> Result<NodeCache, Memory>
        ensures { IfOk result (λ c. c ≡ record { capacity = capacity; entries = [] }) }
    {
        let capacity = NonZeroUsize::new(capacity.get() as usize).unwrap();
        Ok(NodeCache {
            signatures: LruCache::sparse(alloc, capacity)?,
        })
    }

    /// How many entries there may be.
    pub fn capacity(&self) -> u32
        ensures value { result ≡ self.now.capacity }
        ensures cache { IsCache self.now }
    {
        self.signatures.cap().get() as u32
    }

    /// How many entries there are.
    pub fn len(&self) -> u64
        ensures value { result ≡ length self.now.entries }
        ensures cache { IsCache self.now }
    {
        self.signatures.len() as u64
    }

    /// The signature that is kept for a node since a version, `None` where there is none. The
    /// order stays.
    pub fn peek(&self, node: Node, since: u64) -> Option<&Arc<Sig>>
        ensures { option_map (λ sig. arc_value sig.now) result ≡ sig_of node since self.now.entries }
    {
        self.signatures.peek(&(node, since))
    }

    /// Brings the entry of a node and a version to the front, where it is there, and answers
    /// whether it is. Takes no memory.
    pub fn find(&mut self, node: Node, since: u64) -> bool
        ensures found { result ≡ is_some (entry_of node since self.old.entries) }
        ensures entries { self.new ≡ record { capacity = self.old.capacity; entries = promoted node since self.old.entries } }
        ensures absent { OnFalse result (self.new ≡ self.old) }
    {
        self.signatures.promote(&(node, since))
    }

    /// Puts the signature of a node since a version at the front, in place of the one that is
    /// there. Past the capacity the last entry goes. Want of memory leaves the cache as it was.
    pub fn keep(&mut self, node: Node, since: u64, sig: Arc<Sig>) -> Result<(), Memory>
        ensures ok { OnOk result (self.new ≡ record { capacity = self.old.capacity; entries = kept node since (arc_value sig) self.old.capacity self.old.entries }) }
        ensures err { OnErr result (self.new ≡ self.old) }
    {
        self.signatures.put((node, since), sig)?;
        Ok(())
    }

    /// Takes the entry of a node and a version out, where it is there. The others keep their
    /// order. Takes no memory.
    pub fn drop_pair(&mut self, node: Node, since: u64)
        ensures { self.new ≡ record { capacity = self.old.capacity; entries = without_pair node since self.old.entries } }
    {
        let _ = self.signatures.pop(&(node, since));
    }
}
