//! Requests, responses and bodies.

use crate::said::Said;
use crate::steps::{Do, first_off_anew};
use edge_imports::Hostcall;
use std::alloc::{AllocError, Global};
use std::test::Fail;

/// Two headers, `a` and `bb`; the value of the first in a buffer that is too small, and the same in one that it fills; places
/// that are refused; the names as a list. Then what stands in the memory: the value's length behind both calls, and its bytes in
/// the second buffer alone; of each list its bytes, the next cursor and how many bytes there are; a body's handle and length.
const BUFFERS_AND_LISTS: &[Do] = &[
    Do::Put(16, b"abb"),
    Do::Put(32, b"value"),
    Do::Call(Hostcall::RequestNew, &[64], 0),
    Do::Call(Hostcall::RequestHeaderInsert, &[1, 16, 1, 32, 5], 0),
    Do::Call(Hostcall::RequestHeaderInsert, &[1, 17, 2, 32, 5], 0),
    Do::Call(Hostcall::RequestHeaderValueGet, &[1, 16, 1, 192, 4, 68], 4),
    Do::Call(Hostcall::RequestHeaderValueGet, &[1, 16, 1, 128, 5, 64], 0),
    Do::Call(Hostcall::RequestHeaderValueGet, &[1, 16, 1, 128, 5, 2], 6),
    Do::Call(
        Hostcall::RequestHeaderValueGet,
        &[1, 16, 1, 131069, 5, 64],
        2,
    ),
    Do::Call(Hostcall::RequestHeaderNamesGet, &[1, 256, 2, 0, 72, 80], 0),
    Do::Call(Hostcall::RequestHeaderNamesGet, &[1, 272, 3, 1, 88, 96], 0),
    Do::Call(
        Hostcall::RequestHeaderNamesGet,
        &[1, 288, 2, 1, 104, 112],
        4,
    ),
    Do::Call(Hostcall::BodyNew, &[116], 0),
    Do::Call(Hostcall::BodyKnownLength, &[1, 120], 0),
    Do::Has(64, b"\x05\0\0\0\x05\0\0\0"),
    Do::Has(72, b"\x01\0\0\0\0\0\0\0\x02\0\0\0"),
    Do::Has(88, b"\xff\xff\xff\xff\xff\xff\xff\xff\x03\0\0\0"),
    Do::Has(104, b"\0\0\0\0\0\0\0\0\x03\0\0\0"),
    Do::Has(116, b"\x01\0\0\0\0\0\0\0\0\0\0\0"),
    Do::Has(128, b"value\0"),
    Do::Has(192, b"\0\0\0\0\0\0"),
    Do::Has(256, b"a\0\0"),
    Do::Has(272, b"bb\0\0"),
    Do::Has(288, b"\0\0"),
];

#[test]
fn buffers_and_lists(rt: HostRuntime) -> Result<(), Fail> {
    assert_eq!(rt; first_off_anew(rt.alloc(), &[BUFFERS_AND_LISTS])?, None);
    Ok(())
}

/// The request's body, a part behind it and one in front, read in pieces of three bytes; then handles, lengths, and the bytes
/// that were read, part by part.
const A_HELD_BODY: &[Do] = &[
    Do::Put(16, b"abcd"),
    Do::Call(Hostcall::RequestBodyDownstreamGet, &[64, 68], 0),
    Do::Call(Hostcall::BodyWrite, &[1, 16, 2, 0, 72], 0),
    Do::Call(Hostcall::BodyWrite, &[1, 18, 2, 1, 76], 0),
    Do::Call(Hostcall::BodyKnownLength, &[1, 80], 0),
    Do::Call(Hostcall::BodyRead, &[1, 128, 1, 88], 0),
    Do::Call(Hostcall::BodyRead, &[1, 129, 3, 92], 0),
    Do::Call(Hostcall::BodyRead, &[1, 130, 3, 96], 0),
    Do::Call(Hostcall::BodyRead, &[1, 132, 3, 100], 0),
    Do::Call(Hostcall::BodyRead, &[1, 134, 3, 104], 0),
    Do::Has(
        64,
        b"\x01\0\0\0\x01\0\0\0\x02\0\0\0\x02\0\0\0\x06\0\0\0\0\0\0\0",
    ),
    Do::Has(88, b"\x01\0\0\0\x01\0\0\0\x02\0\0\0\x02\0\0\0\0\0\0\0"),
    Do::Has(128, b"cdhiab\0\0"),
];

#[test]
fn a_held_body(rt: HostRuntime) -> Result<(), Fail> {
    assert_eq!(rt; first_off_anew(rt.alloc(), &[A_HELD_BODY])?, None);
    Ok(())
}

/// The body 1 fills an object, the body 2 is one of a hit and three bytes, the body 3 has none; and a response.
const WITH_BODIES: &[Do] = &[
    Do::Put(16, b"mmabckey"),
    Do::Goes(
        Hostcall::CacheTransactionLookup,
        &[21, 3, 0, 0, 64],
        &[Said::Got],
        0,
        b"key\0\0\0\0\0\0\0\0",
    ),
    Do::Goes(
        Hostcall::CacheTransactionInsert,
        &[1, 0, 512, 64],
        &[Said::Made],
        0,
        b"\x07\0\0\0\0\0\0\0\0\0\0\0\0\0\0\0\xff\xff\xff\xff\xff\xff\xff\xff",
    ),
    Do::Goes(
        Hostcall::CacheLookup,
        &[21, 3, 0, 0, 64],
        &[Said::Hit],
        0,
        b"",
    ),
    Do::Call(Hostcall::CacheGetBody, &[2, 0, 0, 68], 0),
    Do::Has8(64, 8_589_934_594),
    Do::Call(Hostcall::BodyWrite, &[2, 18, 3, 0, 64], 0),
    Do::Call(Hostcall::BodyNew, &[64], 0),
    Do::Call(Hostcall::ResponseNew, &[64], 0),
];

/// A call, what its outer calls are answered, what it answers, and what its outer calls say.
type Row = (
    Hostcall,
    &'static [u32],
    &'static [Said],
    u32,
    &'static [u8],
);

/// Calls on these bodies.
fn on_bodies() -> &'static [Row] {
    &[
        (
            Hostcall::BodyAppend,
            &[1, 2],
            &[Said::Bytes, Said::Done, Said::Ended, Said::Done],
            0,
            b"xyabc",
        ),
        (
            Hostcall::BodyAppend,
            &[1, 2],
            &[Said::Bytes, Said::TooLong],
            13,
            b"xy",
        ),
        (Hostcall::BodyAppend, &[1, 2], &[Said::Failed], 1, b""),
        (Hostcall::BodyClose, &[1], &[Said::Short], 9, b""),
        (Hostcall::BodyClose, &[1], &[Said::Done], 0, b""),
        (Hostcall::BodyAbandon, &[1], &[Said::Done], 0, b""),
        (
            Hostcall::BodyWrite,
            &[1, 16, 2, 0, 64],
            &[Said::Done],
            0,
            b"mm",
        ),
        (Hostcall::BodyRead, &[2, 32, 2, 64], &[Said::Bytes], 0, b""),
        (Hostcall::BodyRead, &[2, 32, 2, 64], &[Said::Ended], 0, b""),
        (
            Hostcall::ResponseSendDownstream,
            &[1, 2, 0],
            &[Said::Sent, Said::Ended, Said::Sent, Said::Sent],
            0,
            b"abc",
        ),
        (
            Hostcall::ResponseSendDownstream,
            &[1, 2, 1],
            &[Said::Sent, Said::Bytes, Said::Sent, Said::Ended, Said::Sent],
            0,
            b"xyabc",
        ),
        (
            Hostcall::ResponseSendDownstream,
            &[1, 2, 0],
            &[Said::Sent, Said::Failed, Said::Sent],
            1,
            b"",
        ),
        (
            Hostcall::ResponseSendDownstream,
            &[1, 3, 1],
            &[Said::Sent],
            0,
            b"",
        ),
    ]
}

/// The same where the body 3 is the streamed answer.
fn on_the_answer() -> &'static [Row] {
    &[
        (
            Hostcall::BodyAppend,
            &[3, 2],
            &[Said::Ended, Said::Sent],
            0,
            b"abc",
        ),
        (Hostcall::BodyClose, &[3], &[Said::Sent], 0, b""),
        (Hostcall::BodyAbandon, &[3], &[Said::Sent], 0, b""),
        (
            Hostcall::BodyWrite,
            &[3, 16, 2, 0, 64],
            &[Said::Sent],
            0,
            b"mm",
        ),
    ]
}

/// What makes it that.
const STREAMED: &[Do] = &[Do::Goes(
    Hostcall::ResponseSendDownstream,
    &[1, 3, 1],
    &[Said::Sent],
    0,
    b"",
)];

/// A call of a guest with these bodies, behind further steps: whether all come out as told.
fn comes_out(alloc: Global, before: &[Do], row: &Row) -> Result<bool, AllocError> {
    let (call, words, replies, number, bytes) = *row;
    let step = [Do::Goes(call, words, replies, number, bytes)];
    Ok(first_off_anew(alloc, &[WITH_BODIES, before, &step])?.is_none())
}

/// The place of the first row that doesn't.
fn first_row_off(alloc: Global, before: &[Do], rows: &[Row]) -> Result<Option<usize>, AllocError> {
    for (place, row) in rows.iter().enumerate() {
        if !comes_out(alloc, before, row)? {
            return Ok(Some(place));
        }
    }
    Ok(None)
}

#[test]
fn calls_with_replies(rt: HostRuntime) -> Result<(), Fail> {
    assert_eq!(rt; first_row_off(rt.alloc(), &[], on_bodies())?, None);
    assert_eq!(rt; first_row_off(rt.alloc(), STREAMED, on_the_answer())?, None);
    Ok(())
}

/// Numbers that calls refuse or take at their limits: versions, statuses, the end of a body, streaming.
const NUMBERS: &[Do] = &[
    Do::Call(Hostcall::RequestNew, &[64], 0),
    Do::Call(Hostcall::ResponseNew, &[64], 0),
    Do::Call(Hostcall::BodyNew, &[64], 0),
    Do::Call(Hostcall::RequestVersionSet, &[1, 5], 2),
    Do::Call(Hostcall::ResponseVersionSet, &[1, 4], 0),
    Do::Call(Hostcall::ResponseStatusSet, &[1, 199], 12),
    Do::Call(Hostcall::ResponseStatusSet, &[1, 1000], 12),
    Do::Call(Hostcall::ResponseStatusSet, &[1, 999], 0),
    Do::Call(Hostcall::ResponseStatusSet, &[1, 200], 0),
    Do::Call(Hostcall::BodyWrite, &[1, 64, 1, 2, 64], 2),
    Do::Call(Hostcall::BodyAppend, &[1, 1], 2),
    Do::Call(Hostcall::ResponseSendDownstream, &[1, 1, 2], 2),
];

#[test]
fn numbers_at_their_limits(rt: HostRuntime) -> Result<(), Fail> {
    assert_eq!(rt; first_off_anew(rt.alloc(), &[NUMBERS])?, None);
    Ok(())
}
