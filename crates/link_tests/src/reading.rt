//! Responses as bytes, and what is read of them.
use crate::rows::{Row, bad, good};
use cache_types::Octets;
use edge_body::ResponseHead;
use edge_link::{ResponseFault, read_response};
use std::alloc::{AllocError, Global};
use std::test::Fail;

/// What was read: status, headers as `name:value;`, body.
#[derive(Drop)]
struct Found {
    status: u16,
    headers: Vec<u8>,
    body: Vec<u8>,
}

fn headers_of(alloc: Global, head: &ResponseHead) -> Result<Vec<u8>, AllocError> {
    let mut all = Vec::new(alloc);
    for field in head.fields().items() {
        all.extend_from_slice(field.name.bytes())?;
        all.push(b':')?;
        all.extend_from_slice(field.value.bytes())?;
        all.push(b';')?;
    }
    Ok(all)
}

/// The one call of what is tested.
fn read(alloc: Global, method: &[u8], bytes: &[u8]) -> Result<Found, ResponseFault> {
    let method = Octets::of(alloc, method)?;
    match read_response(alloc, &method, bytes) {
        Ok((head, body)) => Ok(Found {
            status: head.status(),
            headers: headers_of(alloc, &head)?,
            body: body.bytes().to_vec(alloc)?,
        }),
        Err(fault) => Err(fault),
    }
}

/// What is read of the first bytes of a row.
fn wanted(row: &Row, cut: usize) -> &'static [u8] {
    let body: &'static [u8] = row.body;
    if row.body == row.behind && cut >= row.needed.len() {
        let to_end = (cut - row.needed.len()).min(body.len());
        return &body[..to_end];
    }
    body
}

#[test]
fn responses_in_every_cut(rt: HostRuntime) -> Result<(), Fail> {
    let alloc = rt.alloc();
    for row in good() {
        let mut text = row.needed.to_vec(alloc)?;
        text.extend_from_slice(row.behind)?;
        for cut in 0..=text.len() {
            match read(alloc, row.method, &text.as_slice()[..cut]) {
                Ok(found) => {
                    assert!(rt; cut >= row.needed.len(), "{cut} of {:?}", row.needed);
                    assert_eq!(rt; found.status, row.status);
                    assert_eq!(rt; found.headers.as_slice(), row.headers);
                    assert_eq!(rt; found.body.as_slice(), wanted(row, cut));
                }
                Err(fault) => {
                    assert_eq!(rt; fault, ResponseFault::BadResponse);
                    assert!(rt; cut < row.needed.len(), "{cut} of {:?}", row.needed);
                }
            }
        }
    }
    Ok(())
}

#[test]
fn no_response_in_any_cut(rt: HostRuntime) -> Result<(), Fail> {
    let alloc = rt.alloc();
    for &(method, text) in bad() {
        for cut in 0..=text.len() {
            match read(alloc, method, &text[..cut]) {
                Ok(found) => assert!(rt; false, "{} of {:?}", found.status, text),
                Err(fault) => assert_eq!(rt; fault, ResponseFault::BadResponse),
            }
        }
    }
    Ok(())
}

#[test]
fn bytes_at_the_limit(rt: HostRuntime) -> Result<(), Fail> {
    let alloc = rt.alloc();
    let mut text = b"HTTP/1.1 200 OK\r\n\r\n".to_vec(alloc)?;
    text.resize(67_108_864, b'x')?;
    match read(alloc, b"GET", text.as_slice()) {
        Ok(found) => assert_eq!(rt; found.body.len(), 67_108_845),
        Err(fault) => assert!(rt; false, "{fault:?}"),
    }
    text.push(b'x')?;
    match read(alloc, b"GET", text.as_slice()) {
        Ok(_) => assert!(rt; false),
        Err(fault) => assert_eq!(rt; fault, ResponseFault::TooLarge),
    }
    Ok(())
}
