//! Requests as bytes, and what is read of them.
use crate::pieces::Pieces;
use crate::rows::{good, refused};
use edge_outside::MemSource;
use http_front::{FrontFault, Incoming, read_request};
use std::alloc::{AllocError, Global};
use std::test::Fail;

const POST: &[u8; 69] =
    b"POST /a HTTP/1.1\r\nHost: x\r\nTransfer-Encoding: chunked\r\n\r\n2\r\nhi\r\n0\r\n\r\n";

/// The request that the text begins with, where one read gives so many bytes and the reads of these numbers fail.
fn read(alloc: Global, text: &[u8], most: usize, fails: Vec<u64>) -> Result<Incoming, FrontFault> {
    let Ok(bytes) = text.to_vec(alloc) else {
        return Err(FrontFault::OutOfMemory);
    };
    let mut source = MemSource::new(bytes, most.max(1), fails);
    read_request(alloc, &mut source)
}

#[test]
fn requests_are_read(rt: HostRuntime) -> Result<(), Fail> {
    let alloc = rt.alloc();
    for most in [1usize, 4096] {
        for &(text, uri, body) in good() {
            match read(alloc, text, most, Vec::new(alloc)) {
                Ok(found) => {
                    assert_eq!(rt; found.head.uri().bytes(), uri);
                    assert_eq!(rt; found.body.bytes(), body);
                }
                Err(fault) => assert!(rt; false, "{fault:?} of {uri:?}"),
            }
        }
    }
    Ok(())
}

#[test]
fn faults_are_told(rt: HostRuntime) -> Result<(), Fail> {
    let alloc = rt.alloc();
    for most in [1usize, 4096] {
        for &(text, want) in refused() {
            match read(alloc, text, most, Vec::new(alloc)) {
                Ok(_) => assert!(rt; false, "{want:?}, and not Ok: {text:?}"),
                Err(fault) => assert_eq!(rt; fault, want, "{text:?}"),
            }
        }
    }
    Ok(())
}

/// A request of so many headers besides Host, whose head has so many bytes.
fn long_request(alloc: Global, headers: usize, length: usize) -> Result<Vec<u8>, AllocError> {
    let mut text = Vec::from_slice(alloc, b"GET /a HTTP/1.1\r\nHost: x\r\n")?;
    for _ in 1..headers {
        text.extend_from_slice(b"a: b\r\n")?;
    }
    text.extend_from_slice(b"a: ")?;
    let fill = length.saturating_sub(text.len() + 4);
    text.resize(text.len() + fill, b'x')?;
    text.extend_from_slice(b"\r\n\r\n")?;
    Ok(text)
}

#[test]
fn heads_at_their_limits(rt: HostRuntime) -> Result<(), Fail> {
    let alloc = rt.alloc();
    let rows: [(usize, usize, Option<FrontFault>); 5] = [
        (1, 65_536, None),
        (99, 65_536, None),
        (100, 1000, Some(FrontFault::HeadTooLarge)),
        (1, 65_537, Some(FrontFault::HeadTooLarge)),
        (1, 70_000, Some(FrontFault::HeadTooLarge)),
    ];
    for (headers, length, want) in rows {
        let text = long_request(alloc, headers, length)?;
        match read(alloc, text.as_slice(), 100, Vec::new(alloc)) {
            Ok(_) => assert!(rt; want.is_none(), "{headers} {length}"),
            Err(fault) => assert_eq!(rt; Some(fault), want, "{headers} {length}"),
        }
    }
    Ok(())
}

#[test]
fn one_request_in_every_cut(rt: HostRuntime) -> Result<(), Fail> {
    let alloc = rt.alloc();
    for most in 1..70usize {
        match read(alloc, POST, most, Vec::new(alloc)) {
            Ok(found) => assert_eq!(rt; found.body.bytes(), b"hi".as_slice()),
            Err(fault) => assert!(rt; false, "{fault:?} at {most}"),
        }
        let cut = read(alloc, &POST[..most - 1], 7, Vec::new(alloc));
        assert!(rt; matches!(cut, Err(FrontFault::Cut)), "{most}");
    }
    for call in 1..4u64 {
        let failed = read(alloc, POST, 1, vec![in alloc; call]?);
        assert!(rt; matches!(failed, Err(FrontFault::ReadFault)), "{call}");
    }
    Ok(())
}

#[test]
fn one_request_in_two_pieces(rt: HostRuntime) -> Result<(), Fail> {
    let alloc = rt.alloc();
    let text = POST.as_slice();
    for cut in 1..69usize {
        let mut source = Pieces {
            first: &text[..cut],
            then: &text[cut..],
            reads: 0,
        };
        match read_request(alloc, &mut source) {
            Ok(found) => assert_eq!(rt; found.body.bytes(), b"hi".as_slice()),
            Err(fault) => assert!(rt; false, "{fault:?} at {cut}"),
        }
        assert_eq!(rt; source.reads, 2, "{cut}");
    }
    Ok(())
}
