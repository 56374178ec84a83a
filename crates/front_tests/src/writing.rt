//! Answers in their bytes.
use cache_types::{Copied, Octets};
use edge_body::{RequestHead, ResponseHead, is_status};
use edge_outside::MemSource;
use http_front::{
    Framing, FrontFault, answer_head, end_frame, error_answer, fault_answer, framing, piece_frame,
    read_request,
};
use std::alloc::{AllocError, Global};
use std::test::Fail;

const GET: &[u8] = b"GET /a HTTP/1.1\r\nHost: x\r\n\r\n";

const OLD: &[u8] = b"GET /a HTTP/1.0\r\n\r\n";

const HEAD: &[u8] = b"HEAD /a HTTP/1.1\r\nHost: x\r\n\r\n";

/// A request with the headers of the responses, two of the host's own names among them, which aren't written.
const FIELDS: &[u8] =
    b"GET / HTTP/1.0\r\nContent-Length: 0\r\nB: 1\r\nConnection: upgrade\r\nA:\r\n\r\n";

/// The head of the request with this text.
fn asked(alloc: Global, text: &[u8]) -> Result<RequestHead, FrontFault> {
    let mut source = MemSource::new(text.to_vec(alloc)?, 4096, Vec::new(alloc));
    Ok(read_request(alloc, &mut source)?.head)
}

/// A response with the headers of the request with this text.
fn response(alloc: Global, text: &[u8], status: u16) -> Result<ResponseHead, FrontFault> {
    let head = asked(alloc, text)?;
    let fields = head.fields().copy(alloc)?;
    if is_status(status) {
        return Ok(ResponseHead::new(status, 2, fields));
    }
    Err(FrontFault::Bad)
}

fn add(alloc: Global, all: &mut Vec<u8>, framing: Framing, piece: &[u8]) -> Result<(), AllocError> {
    let piece = Octets::of(alloc, piece)?;
    let frame = piece_frame(alloc, framing, &piece)?;
    all.extend_from_slice(frame.bytes())
}

/// A body in these pieces.
fn body(alloc: Global, framing: Framing, pieces: &[&[u8]]) -> Result<Vec<u8>, AllocError> {
    let mut all = Vec::new(alloc);
    for piece in pieces {
        add(alloc, &mut all, framing, piece)?;
    }
    let end = end_frame(alloc, framing)?;
    all.extend_from_slice(end.bytes())?;
    Ok(all)
}

/// The head and the body of the answer to the request with this text: the headers of the second request, and these
/// pieces.
fn answer(
    alloc: Global,
    text: &[u8],
    status: u16,
    length: Option<u64>,
    fields: &[u8],
    pieces: &[&[u8]],
) -> Result<(Octets, Vec<u8>), FrontFault> {
    let request = asked(alloc, text)?;
    let response = response(alloc, fields, status)?;
    let head = answer_head(alloc, &request, &response, length)?;
    let body = body(alloc, framing(&request, &head), pieces)?;
    Ok((head, body))
}

/// Requests, statuses and lengths, and the heads and bodies of the answers.
const ANSWERS: [(&[u8], u16, Option<u64>, &[u8], &[u8]); 7] = [
    (
        GET,
        200,
        Some(18),
        b"HTTP/1.1 200 OK\r\nb: 1\r\na: \r\ncontent-length: 18\r\nconnection: close\r\n\r\n",
        b"hi0123456789abcdef",
    ),
    (
        GET,
        200,
        None,
        b"HTTP/1.1 200 OK\r\nb: 1\r\na: \r\ntransfer-encoding: chunked\r\nconnection: close\r\n\r\n",
        b"2\r\nhi\r\n10\r\n0123456789abcdef\r\n0\r\n\r\n",
    ),
    (
        OLD,
        200,
        None,
        b"HTTP/1.1 200 OK\r\nb: 1\r\na: \r\nconnection: close\r\n\r\n",
        b"hi0123456789abcdef",
    ),
    (
        HEAD,
        200,
        Some(18),
        b"HTTP/1.1 200 OK\r\nb: 1\r\na: \r\nconnection: close\r\n\r\n",
        b"",
    ),
    (
        GET,
        204,
        Some(18),
        b"HTTP/1.1 204 No Content\r\nb: 1\r\na: \r\nconnection: close\r\n\r\n",
        b"",
    ),
    (
        GET,
        304,
        None,
        b"HTTP/1.1 304 Not Modified\r\nb: 1\r\na: \r\nconnection: close\r\n\r\n",
        b"",
    ),
    (
        OLD,
        999,
        Some(18),
        b"HTTP/1.1 999 \r\nb: 1\r\na: \r\ncontent-length: 18\r\nconnection: close\r\n\r\n",
        b"hi0123456789abcdef",
    ),
];

/// Three pieces, of which one is empty.
const PIECES: [&[u8]; 3] = [b"hi", b"", b"0123456789abcdef"];

/// The same of one piece and no headers.
const SHORT: [(&[u8], u16, Option<u64>, &[u8], &[u8]); 2] = [
    (
        GET,
        200,
        Some(2),
        b"HTTP/1.1 200 OK\r\ncontent-length: 2\r\nconnection: close\r\n\r\n",
        b"hi",
    ),
    (
        GET,
        200,
        None,
        b"HTTP/1.1 200 OK\r\ntransfer-encoding: chunked\r\nconnection: close\r\n\r\n",
        b"2\r\nhi\r\n0\r\n\r\n",
    ),
];

#[test]
fn answers_in_their_bytes(rt: HostRuntime) -> Result<(), Fail> {
    let alloc = rt.alloc();
    for (rows, fields, pieces) in [
        (ANSWERS.as_slice(), FIELDS, PIECES.as_slice()),
        (SHORT.as_slice(), OLD, &PIECES[..1]),
    ] {
        for (text, status, length, head, body) in rows {
            match answer(alloc, text, *status, *length, fields, pieces) {
                Ok(found) => {
                    assert_eq!(rt; found.0.bytes(), *head);
                    assert_eq!(rt; found.1.as_slice(), *body);
                }
                Err(fault) => assert!(rt; false, "{fault:?} of {text:?}"),
            }
        }
    }
    Ok(())
}

/// Faults and their answers, empty for none.
const FAULTS: [(FrontFault, &[u8]); 7] = [
    (
        FrontFault::Bad,
        b"HTTP/1.1 400 Bad Request\r\ncontent-length: 0\r\nconnection: close\r\n\r\n",
    ),
    (
        FrontFault::HeadTooLarge,
        b"HTTP/1.1 431 Request Header Fields Too Large\r\ncontent-length: 0\r\nconnection: close\r\n\r\n",
    ),
    (
        FrontFault::TooLarge,
        b"HTTP/1.1 413 Payload Too Large\r\ncontent-length: 0\r\nconnection: close\r\n\r\n",
    ),
    (
        FrontFault::Unsupported,
        b"HTTP/1.1 501 Not Implemented\r\ncontent-length: 0\r\nconnection: close\r\n\r\n",
    ),
    (FrontFault::Cut, b""),
    (FrontFault::ReadFault, b""),
    (FrontFault::OutOfMemory, b""),
];

#[test]
fn faults_are_answered(rt: HostRuntime) -> Result<(), Fail> {
    let alloc = rt.alloc();
    for (fault, want) in FAULTS {
        match fault_answer(alloc, fault)? {
            Some(found) => assert_eq!(rt; found.bytes(), want),
            None => assert_eq!(rt; b"".as_slice(), want),
        }
    }
    let error =
        b"HTTP/1.1 500 Internal Server Error\r\ncontent-length: 0\r\nconnection: close\r\n\r\n";
    assert_eq!(rt; error_answer(alloc)?.bytes(), error.as_slice());
    Ok(())
}
