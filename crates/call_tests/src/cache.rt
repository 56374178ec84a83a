//! A lookup, an insertion and what they tell, with replies as a cache gives them.

use crate::said::Said;
use crate::steps::{Do, first_off_anew};
use edge_imports::Hostcall;
use std::test::Fail;

/// The record at 64: fresh for 10, 4 old, usable for 3 more, 5 bytes long, with metadata. A lookup that was put off is waited
/// for, which takes its busy handle; the handle 1 is told to insert, and it has no length. It inserts: a body, and the handle 2
/// on the object that it fills, which is found and usable, and tells what the record says. Its body is given, with no option
/// and with one, and its metadata, for which the buffer is too small.
const READ_BACK: &[Do] = &[
    Do::Put(512, b"keyabout"),
    Do::Put8(64, 10),
    Do::Put8(88, 4),
    Do::Put8(96, 3),
    Do::Put8(112, 5),
    Do::Put4(120, 515),
    Do::Put4(124, 5),
    Do::Call(Hostcall::CacheTransactionLookupAsync, &[512, 3, 0, 0, 8], 0),
    Do::Has4(8, 1),
    Do::Goes(
        Hostcall::CacheBusyHandleWait,
        &[1, 16],
        &[Said::Got],
        0,
        b"key\0\0\0\0\0\0\0\0",
    ),
    Do::Has4(16, 1),
    Do::Call(Hostcall::CacheCloseBusy, &[1], 3),
    Do::Call(Hostcall::CacheGetLength, &[1, 24], 10),
    Do::Goes(
        Hostcall::CacheTransactionInsertAndStreamBack,
        &[1, 216, 64, 32, 36],
        &[Said::Made],
        0,
        b"\x07\0\0\0\0\0\0\0\x0a\0\0\0\0\0\0\0\x05\0\0\0\0\0\0\0about",
    ),
    Do::Has(32, b"\x01\0\0\0\x02\0\0\0"),
    Do::Call(Hostcall::CacheGetState, &[2, 200], 0),
    Do::Call(Hostcall::CacheGetLength, &[2, 208], 0),
    Do::Call(Hostcall::CacheGetMaxAgeNs, &[2, 216], 0),
    Do::Call(Hostcall::CacheGetStaleWhileRevalidateNs, &[2, 224], 0),
    Do::Call(Hostcall::CacheGetAgeNs, &[2, 232], 0),
    Do::Call(Hostcall::CacheGetBody, &[2, 0, 0, 240], 0),
    Do::Call(Hostcall::CacheGetBody, &[2, 1, 0, 244], 5),
    Do::Call(Hostcall::CacheGetUserMetadata, &[2, 256, 4, 248], 4),
    Do::Has4(200, 3),
    Do::Has8(208, 5),
    Do::Has8(216, 10),
    Do::Has8(224, 3),
    Do::Has8(232, 4),
    Do::Has(240, b"\x02\0\0\0\0\0\0\0\x05\0\0\0\0\0\0\0"),
    Do::Zeros(256, 8),
    Do::Call(Hostcall::CacheGetUserMetadata, &[2, 256, 5, 248], 0),
    Do::Has(256, b"about\0"),
];

#[test]
fn what_is_read_back(rt: HostRuntime) -> Result<(), Fail> {
    assert_eq!(rt; first_off_anew(rt.alloc(), &[READ_BACK])?, None);
    Ok(())
}

/// A second insertion for one handle is inval, as the cache refuses it; a handle that was closed is badf.
const OWN_NAMES: &[Do] = &[
    Do::Put(512, b"key"),
    Do::Goes(
        Hostcall::CacheTransactionLookup,
        &[512, 3, 0, 0, 8],
        &[Said::Got],
        0,
        b"key\0\0\0\0\0\0\0\0",
    ),
    Do::Goes(
        Hostcall::CacheTransactionInsert,
        &[1, 0, 64, 32],
        &[Said::Made],
        0,
        b"\x07\0\0\0\0\0\0\0\0\0\0\0\0\0\0\0\xff\xff\xff\xff\xff\xff\xff\xff",
    ),
    Do::Goes(
        Hostcall::CacheTransactionInsert,
        &[1, 0, 64, 32],
        &[Said::Refused],
        2,
        b"\x07\0\0\0\0\0\0\0\0\0\0\0\0\0\0\0\xff\xff\xff\xff\xff\xff\xff\xff",
    ),
    Do::Goes(Hostcall::CacheClose, &[1], &[Said::Done], 0, b""),
    Do::Call(Hostcall::CacheClose, &[1], 3),
    Do::Call(Hostcall::CacheTransactionInsert, &[1, 0, 64, 32], 3),
];

#[test]
fn own_names(rt: HostRuntime) -> Result<(), Fail> {
    assert_eq!(rt; first_off_anew(rt.alloc(), &[OWN_NAMES])?, None);
    Ok(())
}

/// Keys are purged; what no cache replies is an error. A transaction is cancelled, and one that isn't there badf.
const ENDS: &[Do] = &[
    Do::Put(512, b"key"),
    Do::Goes(
        Hostcall::PurgeSurrogateKey,
        &[512, 3, 1, 4294967295],
        &[Said::Done],
        0,
        b"",
    ),
    Do::Call(Hostcall::PurgeSurrogateKey, &[512, 0, 0, 0], 2),
    Do::Call(Hostcall::PurgeSurrogateKey, &[512, 0, 2, 0], 5),
    Do::Call(Hostcall::PurgeSurrogateKey, &[512, 1024, 1, 0], 100),
    Do::Call(Hostcall::PurgeSurrogateKey, &[512, 1025, 0, 0], 13),
    Do::Goes(
        Hostcall::PurgeSurrogateKey,
        &[512, 3, 0, 0],
        &[Said::Refused],
        2,
        b"",
    ),
    Do::Goes(
        Hostcall::PurgeSurrogateKey,
        &[512, 3, 0, 0],
        &[Said::Made],
        1,
        b"",
    ),
    Do::Goes(
        Hostcall::PurgeSurrogateKey,
        &[512, 3, 0, 0],
        &[Said::Sent],
        1,
        b"",
    ),
    Do::Call(Hostcall::CacheClose, &[1], 3),
    Do::Call(Hostcall::CacheTransactionCancel, &[1], 3),
    Do::Goes(
        Hostcall::CacheTransactionLookup,
        &[512, 3, 0, 0, 8],
        &[Said::Got],
        0,
        b"key\0\0\0\0\0\0\0\0",
    ),
    Do::Goes(
        Hostcall::CacheTransactionCancel,
        &[1],
        &[Said::Done],
        0,
        b"",
    ),
    Do::Goes(
        Hostcall::CacheTransactionCancel,
        &[1],
        &[Said::Refused],
        2,
        b"",
    ),
];

#[test]
fn ends_and_odd_replies(rt: HostRuntime) -> Result<(), Fail> {
    assert_eq!(rt; first_off_anew(rt.alloc(), &[ENDS])?, None);
    Ok(())
}
