//! The link in memory, through its trait.
use edge_outside::*;
use std::alloc::{AllocError, Global};
use std::test::Fail;

fn reply(alloc: Global, bytes: &[u8], polls: u64) -> Result<MemReply, AllocError> {
    Ok(MemReply {
        bytes: bytes.to_vec(alloc)?,
        polls,
    })
}

/// Two replies, which are there after 2 polls and at once.
fn two(alloc: Global, fails: &[u64]) -> Result<MemLink, AllocError> {
    let replies = vec![in alloc; reply(alloc, b"one", 2)?, reply(alloc, b"two", 0)?]?;
    Ok(MemLink::new(alloc, replies, fails.to_vec(alloc)?))
}

#[test]
fn a_link_gives_its_replies(rt: HostRuntime) -> Result<(), Fail> {
    let alloc = rt.alloc();
    let mut link = two(alloc, &[])?;
    let Ok(first) = link.start(alloc, "h:1", b"a") else {
        return Err("the first start".into());
    };
    let Ok(second) = link.start(alloc, "h:1", b"b") else {
        return Err("the second start".into());
    };
    assert_eq!(rt; (first, second), (1, 2));
    // A start past the last reply fails.
    assert_eq!(rt; link.start(alloc, "h:1", b"c"), Err(IoFault::Failed));
    assert_eq!(rt; link.ready(&[first, second]), 1);
    assert_eq!(rt; link.ready(&[first]), 0);
    let Ok(None) = link.poll(alloc, first) else {
        return Err("the first poll".into());
    };
    // It has one poll left, which is still more than none.
    assert_eq!(rt; link.ready(&[second, first]), 0);
    let Ok(None) = link.poll(alloc, first) else {
        return Err("the second poll".into());
    };
    let Ok(Some(bytes)) = link.poll(alloc, first) else {
        return Err("the third poll".into());
    };
    assert_eq!(rt; bytes.as_slice(), b"one".as_slice());
    Ok(())
}

#[test]
fn a_link_waits_for_a_reply(rt: HostRuntime) -> Result<(), Fail> {
    let alloc = rt.alloc();
    let mut link = two(alloc, &[])?;
    let Ok(_first) = link.start(alloc, "h:1", b"a") else {
        return Err("the first start".into());
    };
    let Ok(second) = link.start(alloc, "h:1", b"b") else {
        return Err("the second start".into());
    };
    let Ok(bytes) = link.wait(alloc, second) else {
        return Err("the wait".into());
    };
    assert_eq!(rt; bytes.as_slice(), b"two".as_slice());
    Ok(())
}

#[test]
fn a_link_fails_where_it_is_told(rt: HostRuntime) -> Result<(), Fail> {
    let alloc = rt.alloc();
    // The first start fails, and the second one has the second reply.
    let mut link = two(alloc, &[1, 3])?;
    assert_eq!(rt; link.start(alloc, "h:1", b"a"), Err(IoFault::Failed));
    let Ok(second) = link.start(alloc, "h:1", b"b") else {
        return Err("the second start".into());
    };
    assert_eq!(rt; second, 2);
    assert_eq!(rt; link.wait(alloc, second).err(), Some(IoFault::Failed));
    Ok(())
}

#[test]
fn the_first_among_equals_is_ready(rt: HostRuntime) -> Result<(), Fail> {
    let alloc = rt.alloc();
    let replies = vec![in alloc;
        reply(alloc, b"", 3)?,
        reply(alloc, b"", 1)?,
        reply(alloc, b"", 1)?,
    ]?;
    let mut link = MemLink::new(alloc, replies, Vec::new(alloc));
    let Ok(first) = link.start(alloc, "h:1", b"a") else {
        return Err("the first start".into());
    };
    let Ok(second) = link.start(alloc, "h:1", b"a") else {
        return Err("the second start".into());
    };
    let Ok(third) = link.start(alloc, "h:1", b"a") else {
        return Err("the third start".into());
    };
    assert_eq!(rt; link.ready(&[first, second, third]), 1);
    assert_eq!(rt; link.ready(&[third, second, first]), 0);
    Ok(())
}
