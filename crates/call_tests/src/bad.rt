//! Handles and places that calls have to refuse, and what is left then.

use crate::guest::{Guest, ask, fresh_guest, settings};
use crate::kinds::{Kind, bad, with_one_bad};
use crate::parameters::calls;
use crate::said::Said;
use crate::steps::{Do, first_off_of};
use edge_imports::Hostcall;
use std::alloc::{AllocError, Global};
use std::test::Fail;

// What makes the handles: of requests, responses and bodies 1 names something and 2 was closed, 3 names a request alone, 5 a
// body alone; of stores 1, of secrets 1 to 5, of endpoints 1 to 6; of lookups 1, 3 and 4, and 2 was closed; of busy handles 1
// and 2, and 3 was closed.

fn messages_made() -> &'static [Do] {
    &[
        Do::Put(16, b"namekey"),
        Do::Call(Hostcall::RequestNew, &[64], 0),
        Do::Call(Hostcall::RequestNew, &[64], 0),
        Do::Call(Hostcall::RequestNew, &[64], 0),
        Do::Call(Hostcall::RequestClose, &[2], 0),
        Do::Call(Hostcall::ResponseNew, &[64], 0),
        Do::Call(Hostcall::ResponseNew, &[64], 0),
        Do::Call(Hostcall::ResponseClose, &[2], 0),
        Do::Call(Hostcall::BodyNew, &[64], 0),
        Do::Call(Hostcall::BodyNew, &[64], 0),
        Do::Call(Hostcall::BodyNew, &[64], 0),
        Do::Call(Hostcall::BodyNew, &[64], 0),
        Do::Call(Hostcall::BodyNew, &[64], 0),
        Do::Call(Hostcall::BodyClose, &[2], 0),
        Do::Call(Hostcall::BodyClose, &[3], 0),
        Do::Call(Hostcall::BodyAbandon, &[4], 0),
    ]
}

fn stores_made() -> &'static [Do] {
    &[
        Do::Call(Hostcall::DictionaryOpen, &[16, 4, 64], 0),
        Do::Call(Hostcall::ConfigStoreOpen, &[16, 4, 64], 0),
        Do::Call(Hostcall::SecretStoreOpen, &[16, 4, 64], 0),
        Do::Call(Hostcall::SecretStoreGet, &[1, 20, 3, 64], 0),
        Do::Call(Hostcall::SecretStoreGet, &[1, 20, 3, 64], 0),
        Do::Call(Hostcall::SecretStoreGet, &[1, 20, 3, 64], 0),
        Do::Call(Hostcall::SecretStoreGet, &[1, 20, 3, 64], 0),
        Do::Call(Hostcall::SecretStoreGet, &[1, 20, 3, 64], 0),
    ]
}

fn endpoints_made() -> &'static [Do] {
    &[
        Do::Call(Hostcall::LogEndpointGet, &[16, 4, 64], 0),
        Do::Call(Hostcall::LogEndpointGet, &[16, 4, 64], 0),
        Do::Call(Hostcall::LogEndpointGet, &[16, 4, 64], 0),
        Do::Call(Hostcall::LogEndpointGet, &[16, 4, 64], 0),
        Do::Call(Hostcall::LogEndpointGet, &[16, 4, 64], 0),
        Do::Call(Hostcall::LogEndpointGet, &[16, 4, 64], 0),
    ]
}

fn lookups_made() -> &'static [Do] {
    &[
        Do::Goes(
            Hostcall::CacheTransactionLookup,
            &[20, 3, 0, 0, 64],
            &[Said::Got],
            0,
            b"key\0\0\0\0\0\0\0\0",
        ),
        Do::Goes(
            Hostcall::CacheTransactionLookup,
            &[20, 3, 0, 0, 64],
            &[Said::Got],
            0,
            b"key\0\0\0\0\0\0\0\0",
        ),
        Do::Goes(
            Hostcall::CacheTransactionLookup,
            &[20, 3, 0, 0, 64],
            &[Said::Got],
            0,
            b"key\0\0\0\0\0\0\0\0",
        ),
        Do::Goes(
            Hostcall::CacheTransactionLookup,
            &[20, 3, 0, 0, 64],
            &[Said::Got],
            0,
            b"key\0\0\0\0\0\0\0\0",
        ),
        Do::Goes(Hostcall::CacheClose, &[2], &[Said::Done], 0, b""),
        Do::Call(Hostcall::CacheTransactionLookupAsync, &[20, 3, 0, 0, 64], 0),
        Do::Call(Hostcall::CacheTransactionLookupAsync, &[20, 3, 0, 0, 64], 0),
        Do::Call(Hostcall::CacheTransactionLookupAsync, &[20, 3, 0, 0, 64], 0),
        Do::Call(Hostcall::CacheCloseBusy, &[3], 0),
        Do::Put(0, &[97; 128]),
    ]
}

// What is left: the memory, each handle, and the numbers that come next.

fn messages_left() -> &'static [Do] {
    &[
        Do::Has(0, &[97; 128]),
        Do::Zeros(128, 130944),
        Do::Call(Hostcall::RequestClose, &[3], 0),
        Do::Call(Hostcall::RequestNew, &[64], 0),
        Do::Has4(64, 4),
        Do::Call(Hostcall::ResponseClose, &[1], 0),
        Do::Call(Hostcall::ResponseNew, &[64], 0),
        Do::Has4(64, 3),
        Do::Call(Hostcall::BodyClose, &[1], 0),
        Do::Call(Hostcall::BodyClose, &[5], 0),
        Do::Call(Hostcall::BodyNew, &[64], 0),
        Do::Has4(64, 6),
    ]
}

fn stores_left() -> &'static [Do] {
    &[
        Do::Put(16, b"namekey"),
        Do::Call(Hostcall::DictionaryGet, &[1, 20, 3, 128, 3, 64], 0),
        Do::Call(Hostcall::DictionaryOpen, &[16, 4, 64], 0),
        Do::Has4(64, 2),
        Do::Call(Hostcall::ConfigStoreGet, &[1, 20, 3, 128, 3, 64], 0),
        Do::Call(Hostcall::ConfigStoreOpen, &[16, 4, 64], 0),
        Do::Has4(64, 2),
        Do::Call(Hostcall::SecretStorePlaintext, &[5, 128, 5, 64], 0),
        Do::Call(Hostcall::SecretStoreGet, &[1, 20, 3, 64], 0),
        Do::Has4(64, 6),
        Do::Call(Hostcall::SecretStoreOpen, &[16, 4, 64], 0),
        Do::Has4(64, 2),
        Do::Call(Hostcall::LogWrite, &[6, 16, 4, 64], 100),
        Do::Call(Hostcall::LogEndpointGet, &[16, 4, 64], 0),
        Do::Has4(64, 7),
    ]
}

fn lookups_left() -> &'static [Do] {
    &[
        Do::Call(Hostcall::CacheGetState, &[1, 64], 0),
        Do::Call(Hostcall::CacheGetState, &[4, 64], 0),
        Do::Goes(
            Hostcall::CacheTransactionLookup,
            &[20, 3, 0, 0, 64],
            &[Said::Got],
            0,
            b"key\0\0\0\0\0\0\0\0",
        ),
        Do::Has4(64, 5),
        Do::Call(Hostcall::CacheCloseBusy, &[1], 0),
        Do::Call(Hostcall::CacheCloseBusy, &[2], 0),
        Do::Call(Hostcall::CacheTransactionLookupAsync, &[20, 3, 0, 0, 64], 0),
        Do::Has4(64, 4),
    ]
}

/// A bad value of one parameter of a call that isn't answered as it must: the parameter's place and the value.
fn first_let_through(
    alloc: Global,
    guest: &mut Guest,
    call: Hostcall,
    kinds: &[Kind],
) -> Result<Option<(usize, u32)>, AllocError> {
    for (place, kind) in kinds.iter().enumerate() {
        for (value, number) in bad(*kind) {
            let parameters = with_one_bad(kinds, place, *value);
            if ask(alloc, guest, call, &parameters)? != *number {
                return Ok(Some((place, *value)));
            }
        }
    }
    Ok(None)
}

/// The same of some calls, with the call's place among them.
fn first_of_group(
    alloc: Global,
    guest: &mut Guest,
    calls: &[(Hostcall, &[Kind])],
) -> Result<Option<(usize, usize, u32)>, AllocError> {
    for (number, (call, kinds)) in calls.iter().enumerate() {
        if let Some((place, value)) = first_let_through(alloc, guest, *call, kinds)? {
            return Ok(Some((number, place, value)));
        }
    }
    Ok(None)
}

fn first_not_made(alloc: Global, guest: &mut Guest) -> Result<Option<(usize, usize)>, AllocError> {
    let parts = [
        messages_made(),
        stores_made(),
        endpoints_made(),
        lookups_made(),
    ];
    first_off_of(alloc, guest, &parts)
}

fn first_not_left(alloc: Global, guest: &mut Guest) -> Result<Option<(usize, usize)>, AllocError> {
    let parts = [messages_left(), stores_left(), lookups_left()];
    first_off_of(alloc, guest, &parts)
}

/// Whether each parameter of each call in turn is refused where it is bad, and memory and tables stay.
fn are_refused(alloc: Global, guest: &mut Guest) -> Result<bool, AllocError> {
    if first_not_made(alloc, guest)?.is_some() {
        return Ok(false);
    }
    for group in 0..7u32 {
        if first_of_group(alloc, guest, calls(group))?.is_some() {
            return Ok(false);
        }
    }
    Ok(first_not_left(alloc, guest)?.is_none())
}

fn are_refused_anew(alloc: Global) -> Result<bool, AllocError> {
    let settings = settings(alloc)?;
    let mut guest = fresh_guest(alloc, &settings)?;
    are_refused(alloc, &mut guest)
}

/// Each parameter of each call in turn is bad, all others are good: the number is the stated one; memory and tables stay.
#[test]
fn bad_handles_and_places(rt: HostRuntime) -> Result<(), Fail> {
    assert!(rt; are_refused_anew(rt.alloc())?);
    Ok(())
}
