//! Texts that calls take or refuse.

use crate::guest::{Guest, ask, fresh_guest, settings};
use edge_imports::Hostcall;
use std::alloc::{AllocError, Global};
use std::test::Fail;

/// A call on the request 1, its first text and its second, and what it answers.
type Row = (Hostcall, &'static [u8], &'static [u8], u32);

fn rows() -> &'static [Row] {
    &[
        (Hostcall::RequestMethodSet, b"", b"", 7),
        (Hostcall::RequestMethodSet, b"G T", b"", 7),
        (Hostcall::RequestMethodSet, &[71; 65], b"", 7),
        (Hostcall::RequestMethodSet, &[71; 64], b"", 0),
        (Hostcall::RequestUriSet, b"ftp://x/", b"", 7),
        (Hostcall::RequestUriSet, b"http://", b"", 7),
        (Hostcall::RequestUriSet, b"https:///x", b"", 7),
        (Hostcall::RequestUriSet, b"http://x/ y", b"", 7),
        (Hostcall::RequestUriSet, b"https://x?y", b"", 0),
        (Hostcall::RequestHeaderInsert, b"a b", b"v", 7),
        (Hostcall::RequestHeaderInsert, b"a", b"v\n", 7),
        (Hostcall::RequestHeaderInsert, b"a", &[127], 7),
        (Hostcall::RequestHeaderInsert, b"A", b"v\t", 0),
        (Hostcall::RequestHeaderAppend, &[97; 65], b"v", 7),
        (Hostcall::RequestHeaderValuesSet, b"a", b"v", 2),
        (Hostcall::RequestHeaderValuesSet, b"a", b"\n", 2),
        (Hostcall::RequestHeaderValuesSet, b"a", b"v\0\n\0", 7),
        (Hostcall::RequestHeaderValuesSet, b"a", b"", 0),
        (Hostcall::RequestHeaderRemove, b"a", b"", 10),
        (Hostcall::RequestHeaderRemove, b"a b", b"", 7),
    ]
}

/// How many bytes a text has; none of them has more than a page.
fn length(text: &[u8]) -> u32 {
    u32::try_from(text.len()).unwrap_or(u32::MAX)
}

/// What a call answers to these texts, which stand at 256 and at 512.
fn answered(
    alloc: Global,
    guest: &mut Guest,
    call: Hostcall,
    first: &[u8],
    second: &[u8],
) -> Result<Option<u32>, AllocError> {
    if guest.memory.put(256, first).is_err() || guest.memory.put(512, second).is_err() {
        return Ok(None);
    }
    let words = [1, 256, length(first), 512, length(second)];
    Ok(Some(ask(alloc, guest, call, &words)?))
}

/// The place of the first row that isn't answered so.
fn first_row_off(
    alloc: Global,
    guest: &mut Guest,
    rows: &[Row],
) -> Result<Option<usize>, AllocError> {
    for (place, (call, first, second, number)) in rows.iter().enumerate() {
        if answered(alloc, guest, *call, first, second)? != Some(*number) {
            return Ok(Some(place));
        }
    }
    Ok(None)
}

/// The same with a request, which is made first.
fn first_off(alloc: Global, guest: &mut Guest) -> Result<Option<usize>, AllocError> {
    if ask(alloc, guest, Hostcall::RequestNew, &[64])? != 0 {
        return Ok(Some(usize::MAX));
    }
    first_row_off(alloc, guest, rows())
}

fn first_off_anew(alloc: Global) -> Result<Option<usize>, AllocError> {
    let settings = settings(alloc)?;
    let mut guest = fresh_guest(alloc, &settings)?;
    first_off(alloc, &mut guest)
}

#[test]
fn texts_at_their_limits(rt: HostRuntime) -> Result<(), Fail> {
    assert_eq!(rt; first_off_anew(rt.alloc())?, None);
    Ok(())
}
