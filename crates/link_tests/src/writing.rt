//! Requests in their bytes.
use cache_types::{Field, Items, Octets};
use edge_body::{RequestHead, are_fields, is_uri};
use edge_link::request_bytes;
use std::alloc::{AllocError, Global};
use std::test::Fail;

/// Method, uri, names and values by turns, body, authority, and the bytes.
type Row = (
    &'static [u8],
    &'static [u8],
    &'static [&'static [u8]],
    &'static [u8],
    &'static str,
    &'static [u8],
);

const ROWS: [Row; 14] = [
    (
        b"GET",
        b"http://localhost/a?b#c",
        &[],
        b"",
        "h:81",
        b"GET /a?b HTTP/1.1\r\nhost: h:81\r\nconnection: close\r\n\r\n",
    ),
    (
        b"GET",
        b"https://x",
        &[],
        b"",
        "h",
        b"GET / HTTP/1.1\r\nhost: h\r\nconnection: close\r\n\r\n",
    ),
    (
        b"GET",
        b"http://x?q=/a",
        &[],
        b"",
        "h",
        b"GET ?q=/a HTTP/1.1\r\nhost: h\r\nconnection: close\r\n\r\n",
    ),
    (
        b"GET",
        b"http://x#/a",
        &[],
        b"",
        "h",
        b"GET / HTTP/1.1\r\nhost: h\r\nconnection: close\r\n\r\n",
    ),
    (
        b"GET",
        b"/a/b",
        &[],
        b"",
        "h",
        b"GET /a/b HTTP/1.1\r\nhost: h\r\nconnection: close\r\n\r\n",
    ),
    (
        b"GET",
        b"x/a://y/b",
        &[],
        b"",
        "h",
        b"GET /b HTTP/1.1\r\nhost: h\r\nconnection: close\r\n\r\n",
    ),
    (
        b"GET",
        b"http://x/://y/#",
        &[],
        b"",
        "h",
        b"GET /://y/ HTTP/1.1\r\nhost: h\r\nconnection: close\r\n\r\n",
    ),
    (
        b"GET",
        b"",
        &[],
        b"",
        "h",
        b"GET / HTTP/1.1\r\nhost: h\r\nconnection: close\r\n\r\n",
    ),
    (
        b"GET",
        b"http://x/",
        &[
            b"b", b"1", b"host", b"g", b"a", b"2", b"b", b"3", b"host", b"f",
        ],
        b"",
        "h",
        b"GET / HTTP/1.1\r\nhost: g\r\nb: 1\r\na: 2\r\nb: 3\r\nconnection: close\r\n\r\n",
    ),
    (
        b"GET",
        b"http://x/",
        &[
            b"connection",
            b"keep",
            b"content-length",
            b"9",
            b"x",
            b"",
            b"transfer-encoding",
            b"chunked",
        ],
        b"",
        "h",
        b"GET / HTTP/1.1\r\nhost: h\r\nx: \r\nconnection: close\r\n\r\n",
    ),
    (
        b"POST",
        b"http://x/",
        &[b"content-length", b"9"],
        b"",
        "h",
        b"POST / HTTP/1.1\r\nhost: h\r\ncontent-length: 0\r\nconnection: close\r\n\r\n",
    ),
    (
        b"PUT",
        b"http://x/",
        &[b"a", b"b"],
        b"",
        "h",
        b"PUT / HTTP/1.1\r\nhost: h\r\na: b\r\ncontent-length: 0\r\nconnection: close\r\n\r\n",
    ),
    (
        b"GET",
        b"http://x/",
        &[],
        b"0123456789",
        "h",
        b"GET / HTTP/1.1\r\nhost: h\r\ncontent-length: 10\r\nconnection: close\r\n\r\n0123456789",
    ),
    (
        b"put",
        b"http://x/",
        &[b"host", b""],
        b"",
        "h",
        b"put / HTTP/1.1\r\nhost: \r\nconnection: close\r\n\r\n",
    ),
];

fn rows() -> &'static [Row] {
    &ROWS
}

/// The head of these parts, or None where they are none of a head.
fn head_of(
    alloc: Global,
    method: &[u8],
    uri: &[u8],
    words: &[&[u8]],
) -> Result<Option<RequestHead>, AllocError> {
    let mut fields = Vec::new(alloc);
    let mut name = None;
    for word in words {
        name = match name {
            None => Some(Octets::of(alloc, word)?),
            Some(name) => {
                fields.push(Field {
                    name,
                    value: Octets::of(alloc, word)?,
                })?;
                None
            }
        };
    }
    let fields = Items::of(fields);
    if !is_uri(uri) || !are_fields(&fields) {
        return Ok(None);
    }
    let method = Octets::of(alloc, method)?;
    Ok(Some(RequestHead::new(method, Octets::of(alloc, uri)?, 2, fields)))
}

#[test]
fn requests_are_written(rt: HostRuntime) -> Result<(), Fail> {
    let alloc = rt.alloc();
    for &(method, uri, words, body, authority, wanted) in rows() {
        match head_of(alloc, method, uri, words)? {
            Some(head) => {
                let body = Octets::of(alloc, body)?;
                let bytes = request_bytes(alloc, &head, &body, authority)?;
                assert_eq!(rt; bytes.bytes(), wanted);
            }
            None => assert!(rt; false, "{uri:?}"),
        }
    }
    Ok(())
}
