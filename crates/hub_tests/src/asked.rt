//! A caller that knows of its guests what its own pass says, and meets with that what every call asks.
ghost use Rattle.std.specs.Prelude.{◌≡◌, ◌≤◌, ◌∷◌, [], IfOk, IfSome};
ghost use Rattle.turnstile.specs.Rule.{all_parts};
ghost use Rattle.turnstile.specs.Pass.{IsOf, IsSamePass};
ghost use Rattle.cache_hub.specs.Calls.{HasGuest};
ghost use Rattle.hub_tests.specs.Asked.{MayMake, number_of};

use cache_hub::{CallFault, Hub, HubPass, UntilFault};
use cache_plain::PlainCache;
use cache_types::*;
use edge_outside::{Gate, MemClock};
use std::alloc::Global;
use std::sync::Wait;
use std::thread;
use std::time::{Clock, Duration};

/// Why a test didn't come to its end.
#[derive(Clone, Copy, Debug)]
pub enum Stopped {
    OutOfMemory,
    Unanswered,
}

/// Sleeps between two tries, so that who waits for another guest's insertion doesn't keep it from the turn.
#[derive(Drop)]
pub struct Sleeps<'a, K> {
    pub clock: &'a K,
}

impl<'a, K: Clock> Gate for Sleeps<'a, K> {
    fn before(&self, _index: u64, _call: u64) {}

    fn idle(&self) {
        thread::sleep(self.clock, Duration::from_micros(200));
    }
}

/// A hub over an empty cache with room for so many entries, and the pass with all its parts.
pub fn opened(alloc: Global, most: u64) -> Result<(Hub<PlainCache>, HubPass<PlainCache>), Stopped>
    requires { 2 ≤ most }
    ensures { IfOk result (λ made. IsOf made.0 made.1 × (made.1.parts ≡ all_parts)) }
{
    match Hub::open(alloc, PlainCache::new(alloc, most)) {
        Ok(made) => Ok(made),
        Err(_) => Err(Stopped::OutOfMemory),
    }
}

/// What a test looks at of a reply, or of why there is none.
#[derive(Clone, Copy, Debug, PartialEq, Eq)]
pub enum What {
    Nothing,
    Found,
    MustInsert,
    Made,
    Done,
    NotYet,
    Timeout,
    Other,
}

/// The same, with the number of the entry, or with the reading of a timeout.
#[derive(Clone, Copy, Debug, PartialEq, Eq)]
pub struct Said {
    pub what: What,
    pub number: u64,
}

pub fn say(what: What, number: u64) -> Said {
    Said { what, number }
}

fn looked_up(bits: u8, hit: bool) -> What {
    if hit {
        What::Found
    } else if bits == 8 {
        What::MustInsert
    } else {
        What::Nothing
    }
}

fn what_is(reply: &Reply) -> What {
    match reply {
        Reply::Got { bits, hit } => looked_up(*bits, hit.is_some()),
        Reply::Made => What::Made,
        Reply::Done => What::Done,
        Reply::NotYet => What::NotYet,
        _ => What::Other,
    }
}

fn said_in(answer: Result<Stepped, CallFault>) -> Said {
    match answer {
        Ok(told) => say(what_is(&told.reply), told.number),
        Err(_) => say(What::Other, 0),
    }
}

fn said_until(answer: Result<Stepped, UntilFault>) -> Said {
    match answer {
        Ok(told) => say(what_is(&told.reply), told.number),
        Err(UntilFault::Timeout { reading }) => say(What::Timeout, reading),
        Err(_) => say(What::Other, 0),
    }
}

fn number_in<F: Drop>(answer: Result<Stepped, F>) -> Option<u64>
    ensures { result ≡ number_of answer }
{
    match answer {
        Ok(told) => Some(told.number),
        Err(_) => None,
    }
}

/// One try of a Begin, and the guest that it made.
pub fn begin<S: OneCache>(hub: &Hub<S>, pass: HubPass<S>, reading: u64) -> (HubPass<S>, Option<u64>)
    requires { IsOf hub.now pass }
    ensures same { IsSamePass pass result.0 }
    ensures guest { IfSome result.1 (HasGuest result.0) }
{
    let (pass, answer) = hub.try_call(pass, 0, reading, &CacheCall::Begin);
    (pass, number_in(answer))
}

/// A Begin that is tried until the turn is free.
pub fn begin_soon<S: OneCache, W: Wait, G: Gate>(
    rt: &W,
    hub: &Hub<S>,
    pass: HubPass<S>,
    clock: &mut MemClock,
    gate: &G,
) -> (HubPass<S>, Option<u64>)
    requires { IsOf hub.now pass }
    ensures same { IsSamePass pass result.0 }
    ensures guest { IfSome result.1 (HasGuest result.0) }
{
    let call = CacheCall::Begin;
    let (pass, answer) = hub.call_until(rt, pass, 0, clock, u128::MAX, gate, &call);
    (pass, number_in(answer))
}

/// One try of a guest's call.
pub fn ask<S: OneCache>(
    hub: &Hub<S>,
    pass: HubPass<S>,
    guest: u64,
    call: &CacheCall,
) -> (HubPass<S>, Said)
    requires own { IsOf hub.now pass }
    requires guest { HasGuest pass guest }
    requires call { MayMake call.now }
    ensures same { IsSamePass pass result.0 }
    ensures guest { HasGuest result.0 guest }
{
    let (pass, answer) = hub.try_call(pass, guest, 0, call);
    (pass, said_in(answer))
}

/// A guest's call with a deadline, and the last reading of the clock.
pub fn ask_until<S: OneCache, W: Wait, G: Gate>(
    rt: &W,
    hub: &Hub<S>,
    pass: HubPass<S>,
    guest: u64,
    clock: &mut MemClock,
    deadline: u128,
    gate: &G,
    call: &CacheCall,
) -> (HubPass<S>, Said, u64)
    requires own { IsOf hub.now pass }
    requires guest { HasGuest pass guest }
    requires call { MayMake call.now }
    ensures same { IsSamePass pass result.0 }
    ensures guest { HasGuest result.0 guest }
{
    let (pass, answer, last) = hub.call_timed(rt, pass, guest, clock, deadline, gate, call);
    (pass, said_until(answer), last)
}

fn octets(alloc: Global, byte: u8) -> Result<Octets, Stopped>
    ensures { IfOk result (λ octets. octets ≡ byte ∷ []) }
{
    match Octets::of(alloc, &[byte]) {
        Ok(octets) => Ok(octets),
        Err(_) => Err(Stopped::OutOfMemory),
    }
}

pub fn lookup(alloc: Global, key: u8) -> Result<CacheCall, Stopped>
    ensures { IfOk result MayMake }
{
    Ok(CacheCall::Lookup {
        key: octets(alloc, key)?,
        headers: Items::of(Vec::new(alloc)),
    })
}

pub fn tx_lookup(alloc: Global, key: u8) -> Result<CacheCall, Stopped>
    ensures { IfOk result MayMake }
{
    Ok(CacheCall::TxLookup {
        key: octets(alloc, key)?,
        headers: Items::of(Vec::new(alloc)),
    })
}

pub fn purge(alloc: Global, key: u8) -> Result<CacheCall, Stopped>
    ensures { IfOk result MayMake }
{
    Ok(CacheCall::Purge {
        key: octets(alloc, key)?,
        soft: false,
    })
}

pub fn write(alloc: Global, object: u64, byte: u8) -> Result<CacheCall, Stopped>
    ensures { IfOk result MayMake }
{
    Ok(CacheCall::Write {
        object,
        piece: octets(alloc, byte)?,
    })
}

pub fn read(hit: u64) -> CacheCall
    ensures { MayMake result }
{
    CacheCall::Read {
        hit,
        place: 0,
        most: 16,
    }
}

/// An insertion that is fresh for ever, with no header that it varies by.
pub fn tx_insert(alloc: Global, tx: u64) -> Result<CacheCall, Stopped>
    ensures { IfOk result MayMake }
{
    Ok(CacheCall::TxInsert {
        tx,
        writing: Writing {
            terms: Terms {
                max_age: u64::MAX,
                initial_age: 0,
                stale: 0,
                surrogates: Items::of(Vec::new(alloc)),
                metadata: octets(alloc, 0)?,
            },
            rule: Rule::empty(alloc),
            length: None,
        },
    })
}
