//! Records of options: what each call that takes one answers.

use crate::guest::{Guest, ask, fresh_guest, settings};
use crate::said::Said;
use crate::steps::{Do, first_off_anew, first_off_of};
use edge_imports::Hostcall;
use std::alloc::{AllocError, Global};
use std::test::Fail;

/// Fields of a record, a mask, and what is answered.
type Write = (&'static [Do], u32, u32);

// Fields of the record at 64, the mask, and what a write with them answers; 100 is that it makes its call. The texts are
// `accept` at 1,024, `a(b` at 1,040, spaces at 1,536, 33 names at 2,048, and `k` from 4,096 on to 5,121, and from 8,191 on to
// 24,576, where from 8,192 on each 1,024th byte but the last is a space.

/// Masks, and the request's handle.
fn masks() -> &'static [Write] {
    &[
        (&[], 0, 100),
        (&[], 1, 100),
        (&[], 256, 5),
        (&[], 1024, 5),
        (&[], 2147483648, 5),
        (&[], 2, 3),
        (&[Do::Put4(72, 1)], 2, 100),
        (&[Do::Put4(72, 2)], 2, 3),
        (&[Do::Put4(72, 1)], 255, 100),
        (&[Do::Put4(72, 2)], 258, 3),
        (&[Do::Put4(72, 2)], 0, 100),
    ]
}

/// The rule: names of headers.
fn names() -> &'static [Write] {
    &[
        (&[Do::Put4(76, 1024), Do::Put4(80, 6)], 4, 100),
        (&[Do::Put4(76, 1040), Do::Put4(80, 3)], 4, 7),
        (&[Do::Put4(76, 1040), Do::Put4(80, 3)], 0, 100),
        (&[Do::Put4(76, 1040), Do::Put4(80, 3)], 260, 5),
        (&[Do::Put4(76, 2048), Do::Put4(80, 99)], 4, 13),
        (&[Do::Put4(76, 2048), Do::Put4(80, 96)], 4, 100),
        (&[Do::Put4(76, 4096), Do::Put4(80, 64)], 4, 100),
        (&[Do::Put4(76, 4096), Do::Put4(80, 65)], 4, 7),
        (&[Do::Put4(76, 131072), Do::Put4(80, 0)], 4, 100),
        (&[Do::Put4(76, 131073), Do::Put4(80, 0)], 4, 2),
        (&[Do::Put4(76, 131071), Do::Put4(80, 2)], 4, 2),
        (&[Do::Put4(76, 131071), Do::Put4(80, 2)], 260, 2),
        (&[Do::Put4(76, 4294967295), Do::Put4(80, 4294967295)], 4, 2),
        (
            &[Do::Put4(76, 4294967295), Do::Put4(80, 4294967295)],
            0,
            100,
        ),
    ]
}

/// The ages and the length.
fn numbers() -> &'static [Write] {
    &[
        (&[Do::Put8(88, 18446744073709551615)], 8, 100),
        (&[Do::Put8(96, 18446744073709551615)], 16, 100),
        (&[Do::Put8(112, 67108864)], 64, 100),
        (&[Do::Put8(112, 67108865)], 64, 13),
        (&[Do::Put8(112, 67108865)], 0, 100),
        (
            &[Do::Put8(112, 67108865), Do::Put4(76, 1040), Do::Put4(80, 3)],
            68,
            7,
        ),
    ]
}

/// The surrogate keys.
fn keys() -> &'static [Write] {
    &[
        (&[Do::Put4(104, 4096), Do::Put4(108, 1024)], 32, 100),
        (&[Do::Put4(104, 4096), Do::Put4(108, 1025)], 32, 13),
        (&[Do::Put4(104, 8192), Do::Put4(108, 16384)], 32, 100),
        (&[Do::Put4(104, 8192), Do::Put4(108, 16400)], 32, 100),
        (&[Do::Put4(104, 8191), Do::Put4(108, 16385)], 32, 13),
        (&[Do::Put4(104, 131071), Do::Put4(108, 2)], 32, 2),
        (&[Do::Put4(104, 1536), Do::Put4(108, 16)], 32, 100),
    ]
}

/// The metadata.
fn metadata() -> &'static [Write] {
    &[
        (&[Do::Put4(120, 65536), Do::Put4(124, 65536)], 128, 100),
        (&[Do::Put4(120, 65535), Do::Put4(124, 65537)], 128, 13),
        (&[Do::Put4(120, 65536), Do::Put4(124, 65537)], 128, 2),
        (
            &[Do::Put4(120, 65536), Do::Put4(124, 65537), Do::Put4(72, 7)],
            130,
            3,
        ),
    ]
}

/// Five groups of them.
fn writes(group: u32) -> &'static [Write] {
    match group {
        0 => masks(),
        1 => names(),
        2 => numbers(),
        3 => keys(),
        _ => metadata(),
    }
}

/// The texts; spaces stand behind the last keys, of 1,023 bytes but for the last of 1,024, and the byte in front of the first
/// makes that one longer, too.
const TEXTS: &[Do] = &[
    Do::Put(1024, b"accept"),
    Do::Put(1040, b"a(b"),
    Do::Put(1536, &[b' '; 16]),
    Do::Put(4096, &[b'k'; 1025]),
    Do::Put(8191, &[b'k'; 16385]),
    Do::Put(24576, &[b' '; 16]),
    Do::Call(Hostcall::RequestNew, &[8], 0),
    Do::Goes(
        Hostcall::CacheLookup,
        &[1024, 6, 0, 0, 8],
        &[Said::Got],
        0,
        b"",
    ),
    Do::Goes(
        Hostcall::CacheTransactionLookup,
        &[1024, 6, 0, 0, 8],
        &[Said::Got],
        0,
        b"accept\0\0\0\0\0\0\0\0",
    ),
];

/// Spaces between the keys, and 33 names of two letters.
fn with_many(guest: &mut Guest) -> bool {
    let mut good = true;
    for i in 0..15u32 {
        good = good && guest.memory.put(9215 + 1024 * i, b" ").is_ok();
    }
    for i in 0..33u32 {
        let second = u8::try_from(i % 20).unwrap_or(0);
        let first = if i < 20 { b'a' } else { b'b' };
        let name = [first, b'a' + second, b' '];
        good = good && guest.memory.put(2048 + 3 * i, name.as_slice()).is_ok();
    }
    good
}

/// The record 64 bytes long, where no field has a value.
const NOTHING: &[Do] = &[Do::Put(64, &[0; 64])];

/// Whether each call that writes answers this to one mask and one record.
fn all_answer(
    alloc: Global,
    guest: &mut Guest,
    mask: u32,
    number: u32,
) -> Result<bool, AllocError> {
    let insert = [1024, 6, mask, 64, 8];
    let words = [2, mask, 64, 8, 12];
    let calls = [
        (Hostcall::CacheInsert, insert),
        (Hostcall::CacheTransactionInsert, words),
        (Hostcall::CacheTransactionInsertAndStreamBack, words),
        (Hostcall::CacheTransactionUpdate, words),
    ];
    for (call, words) in calls.iter() {
        if ask(alloc, guest, *call, words)? != number {
            return Ok(false);
        }
    }
    Ok(true)
}

/// The place of the first row that isn't answered as is told there.
fn first_record_off(
    alloc: Global,
    guest: &mut Guest,
    rows: &[Write],
) -> Result<Option<usize>, AllocError> {
    for (place, (fields, mask, number)) in rows.iter().enumerate() {
        let written = first_off_of(alloc, guest, &[NOTHING, fields])?.is_none();
        if !written || !all_answer(alloc, guest, *mask, *number)? {
            return Ok(Some(place));
        }
    }
    Ok(None)
}

/// Whether all rows are answered as told.
fn are_answered(alloc: Global, guest: &mut Guest) -> Result<bool, AllocError> {
    if first_off_of(alloc, guest, &[TEXTS])?.is_some() || !with_many(guest) {
        return Ok(false);
    }
    for group in 0..5u32 {
        if first_record_off(alloc, guest, writes(group))?.is_some() {
            return Ok(false);
        }
    }
    Ok(true)
}

fn are_answered_anew(alloc: Global) -> Result<bool, AllocError> {
    let settings = settings(alloc)?;
    let mut guest = fresh_guest(alloc, &settings)?;
    are_answered(alloc, &mut guest)
}

#[test]
fn records_of_writes(rt: HostRuntime) -> Result<(), Fail> {
    assert!(rt; are_answered_anew(rt.alloc())?);
    Ok(())
}

/// Where a record of options lies and how long a key is: what a write with no option answers, and what a lookup does.
const PLACES: &[Do] = &[
    Do::Call(Hostcall::CacheInsert, &[1024, 6, 0, 64, 8], 100),
    Do::Call(Hostcall::CacheInsert, &[1024, 0, 0, 64, 8], 2),
    Do::Call(Hostcall::CacheInsert, &[1024, 1, 0, 64, 8], 100),
    Do::Call(Hostcall::CacheInsert, &[1024, 4096, 0, 64, 8], 100),
    Do::Call(Hostcall::CacheInsert, &[1024, 4097, 0, 64, 8], 13),
    Do::Call(Hostcall::CacheInsert, &[131072, 0, 0, 64, 8], 2),
    Do::Call(Hostcall::CacheInsert, &[131072, 1, 0, 64, 8], 2),
    Do::Call(Hostcall::CacheInsert, &[131073, 0, 0, 65, 9], 2),
    Do::Call(Hostcall::CacheInsert, &[1024, 6, 0, 65, 8], 6),
    Do::Call(Hostcall::CacheInsert, &[1024, 6, 0, 131008, 8], 100),
    Do::Call(Hostcall::CacheInsert, &[1024, 6, 0, 131016, 8], 2),
    Do::Call(Hostcall::CacheInsert, &[1024, 6, 0, 65, 131072], 6),
    Do::Call(Hostcall::CacheInsert, &[1024, 6, 0, 64, 131072], 2),
    Do::Call(Hostcall::CacheInsert, &[1024, 6, 0, 64, 9], 6),
    Do::Call(Hostcall::CacheInsert, &[1024, 0, 0, 64, 9], 6),
    Do::Call(Hostcall::CacheInsert, &[1024, 6, 0, 4294967288, 8], 2),
    Do::Call(Hostcall::CacheLookup, &[1024, 6, 0, 64, 8], 100),
    Do::Call(Hostcall::CacheLookup, &[1024, 6, 1, 64, 8], 100),
    Do::Call(Hostcall::CacheLookup, &[1024, 6, 4, 64, 8], 5),
    Do::Call(Hostcall::CacheLookup, &[1024, 6, 2, 64, 8], 3),
    Do::Call(Hostcall::CacheLookup, &[1024, 6, 6, 64, 8], 3),
    Do::Call(Hostcall::CacheLookup, &[1024, 6, 0, 131068, 8], 100),
    Do::Call(Hostcall::CacheLookup, &[1024, 6, 0, 131069, 8], 2),
    Do::Call(Hostcall::CacheLookup, &[1024, 6, 0, 66, 8], 100),
    Do::Call(Hostcall::CacheLookup, &[1024, 0, 0, 64, 8], 2),
    Do::Call(Hostcall::CacheLookup, &[1024, 0, 4, 64, 8], 5),
    Do::Call(Hostcall::CacheLookup, &[1024, 4097, 0, 64, 8], 13),
];

#[test]
fn places_and_keys(rt: HostRuntime) -> Result<(), Fail> {
    assert_eq!(rt; first_off_anew(rt.alloc(), &[TEXTS, PLACES])?, None);
    Ok(())
}
