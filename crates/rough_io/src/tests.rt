use crate::{
    MemorySink, MemorySource, ReceiveFault, Sink, Source, StdSink, StdSource, receive, send,
};
use std::alloc::{AllocError, Global};
use std::test::Fail;

fn source(alloc: Global, fails: &[u64]) -> Result<MemorySource, AllocError> {
    Ok(MemorySource::new(
        Vec::from_slice(alloc, b"abc")?,
        2,
        Vec::from_slice(alloc, fails)?,
    ))
}

#[test]
fn receives_up_to_one_byte_past_the_limit(rt: HostRuntime) -> Result<(), Fail> {
    for (limit, want) in [(4usize, b"abc".as_slice()), (1, b"ab")] {
        let mut from = source(rt.alloc(), &[])?;
        let bytes = receive(rt.alloc(), &mut from, limit)?;
        assert_eq!(rt; bytes.as_slice(), want, "at the limit {limit}");
    }
    Ok(())
}

#[test]
fn a_failed_read_is_no_end(rt: HostRuntime) -> Result<(), Fail> {
    let mut from = source(rt.alloc(), &[2])?;
    let received = receive(rt.alloc(), &mut from, 4);
    assert!(rt; matches!(received, Err(ReceiveFault::Failed)));
    assert_eq!(rt; from.faults(), 1);
    let bytes = receive(rt.alloc(), &mut from, 4)?;
    assert_eq!(rt; bytes.as_slice(), b"c".as_slice());
    Ok(())
}

#[test]
fn a_sink_fails_where_its_room_is_used_up(rt: HostRuntime) -> Result<(), Fail> {
    let mut to = MemorySink::new(rt.alloc(), 2, 1, Vec::new(rt.alloc()))?;
    for want in [Some(1), Some(1), None] {
        assert_eq!(rt; to.write(b"abc").ok(), want);
    }
    assert_eq!(rt; to.written(), b"aa".as_slice());
    assert_eq!(rt; to.faults(), 1);
    Ok(())
}

#[test]
fn sends_a_prefix_where_a_write_fails(rt: HostRuntime) -> Result<(), Fail> {
    let fails = Vec::from_slice(rt.alloc(), &[3])?;
    let mut to = MemorySink::new(rt.alloc(), 9, 2, fails)?;
    assert!(rt; send(&mut to, b"abc").is_ok());
    assert!(rt; send(&mut to, b"de").is_err());
    assert!(rt; send(&mut to, b"fg").is_ok());
    assert_eq!(rt; to.written(), b"abcfg".as_slice());
    assert_eq!(rt; to.faults(), 1);
    Ok(())
}

#[test]
fn the_standard_streams_are_read_and_written(rt: HostRuntime) -> Result<(), Fail> {
    let mut from = StdSource::new(b"ab".as_slice());
    let bytes = receive(rt.alloc(), &mut from, 9)?;
    assert_eq!(rt; bytes.as_slice(), b"ab".as_slice());
    assert_eq!(rt; from.faults(), 0);
    let mut to = StdSink::new(rt.stdout());
    assert!(rt; send(&mut to, b"ab\n").is_ok());
    assert_eq!(rt; to.faults(), 0);
    Ok(())
}
