use crate::NodeCache;
use dyadic::Node;
use std::alloc::Global;
use std::sync::Arc;
use std::test::Fail;
use tensor_product::Sig;
use words::{Capacity, Shape};

fn node(k: u64, n: i8) -> Result<Node, Fail> {
    Ok(Node::new(k, n).ok_or("no such node")?)
}

/// A cache of so many nodes.
fn cache_of(alloc: Global, nodes: u32) -> Result<NodeCache, Fail> {
    let capacity = Capacity::new(nodes).ok_or("no capacity")?;
    Ok(NodeCache::new(alloc, capacity)?)
}

/// A signature that is told by its width.
fn sig(alloc: Global, width: u32) -> Result<Arc<Sig>, Fail> {
    Ok(Arc::new(alloc, Sig::unit(alloc, Shape::new(width, 1)?)?)?)
}

fn width(cache: &NodeCache, node: Node, since: u64) -> Option<u32> {
    let sig = cache.peek(node, since)?;
    Some(sig.tensor().shape().width())
}

#[test]
fn last_entry_goes(rt: HostRuntime) -> Result<(), Fail> {
    let alloc = rt.alloc();
    let mut cache = cache_of(alloc, 1)?;
    cache.keep(node(0, 0)?, 1, sig(alloc, 1)?)?;
    cache.keep(node(1, 0)?, 2, sig(alloc, 2)?)?;
    assert_eq!(rt; cache.capacity(), 1);
    assert_eq!(rt; cache.len(), 1);
    assert_eq!(rt; width(&cache, node(0, 0)?, 1), None);
    assert_eq!(rt; width(&cache, node(1, 0)?, 2), Some(2));
    Ok(())
}

#[test]
fn found_entry_stays(rt: HostRuntime) -> Result<(), Fail> {
    let alloc = rt.alloc();
    let mut cache = cache_of(alloc, 2)?;
    cache.keep(node(0, 0)?, 1, sig(alloc, 1)?)?;
    cache.keep(node(1, 0)?, 2, sig(alloc, 2)?)?;
    assert!(rt; cache.find(node(0, 0)?, 1));
    assert!(rt; !cache.find(node(0, 0)?, 2));
    cache.keep(node(2, 0)?, 3, sig(alloc, 3)?)?;
    assert_eq!(rt; width(&cache, node(0, 0)?, 1), Some(1));
    assert_eq!(rt; width(&cache, node(1, 0)?, 2), None);
    assert_eq!(rt; width(&cache, node(2, 0)?, 3), Some(3));
    Ok(())
}

#[test]
fn peek_keeps_the_order(rt: HostRuntime) -> Result<(), Fail> {
    let alloc = rt.alloc();
    let mut cache = cache_of(alloc, 2)?;
    cache.keep(node(0, 0)?, 1, sig(alloc, 1)?)?;
    cache.keep(node(1, 0)?, 1, sig(alloc, 2)?)?;
    assert_eq!(rt; width(&cache, node(0, 0)?, 1), Some(1));
    cache.keep(node(2, 0)?, 1, sig(alloc, 3)?)?;
    assert_eq!(rt; width(&cache, node(0, 0)?, 1), None);
    assert_eq!(rt; width(&cache, node(1, 0)?, 1), Some(2));
    Ok(())
}

#[test]
fn shared_signature_outlives_its_entry(rt: HostRuntime) -> Result<(), Fail> {
    let alloc = rt.alloc();
    let mut cache = cache_of(alloc, 2)?;
    let kept = sig(alloc, 2)?;
    cache.keep(node(0, 0)?, 1, Arc::try_clone(&kept)?)?;
    cache.keep(node(0, 0)?, 2, sig(alloc, 3)?)?;
    cache.drop_pair(node(0, 0)?, 1);
    cache.drop_pair(node(0, 0)?, 1);
    assert_eq!(rt; cache.len(), 1);
    assert_eq!(rt; width(&cache, node(0, 0)?, 2), Some(3));
    assert_eq!(rt; kept.tensor().level(0), [1].as_slice());
    assert_eq!(rt; kept.tensor().shape().width(), 2);
    Ok(())
}
