//! One guest of a module, which is told one reply to each of its calls.

ghost use Rattle.std.specs.Prelude.{◌≡◌, Ok, Some, IsTrue};
ghost use Rattle.cache_types.specs.declared.outer.OuterReply.{OuterReply};
ghost use Rattle.edge_imports.specs.Links as linking;
ghost use Rattle.player.specs.Runs.{is_answer};

use cache_types::{CacheCall, Outcome, OuterCall, OuterReply, Reply, Stepped, Trace};
use edge_imports::Linked;
use edge_modules::load;
use edge_outside::MemSource;
use fastly_toml::Settings;
use guest_run::{Guest, Service};
use http_front::{Incoming, read_request};
use module_machine::Prepared;
use player::{Player, Turn};
use std::alloc::Global;
use std::collections::BTreeMap;

const REQUEST: &[u8; 50] = b"POST /a HTTP/1.1\r\nHost: x\r\nContent-Length: 2\r\n\r\nhi";

/// What a guest is given and told: its fuel, what its clock reads, and behind how many calls it is stopped.
#[derive(Clone, Copy)]
pub struct Given {
    pub fuel: u64,
    pub reading: u64,
    pub stop_at: u64,
}

fn request(alloc: Global) -> Option<Incoming> {
    let bytes = REQUEST.to_vec(alloc).ok()?;
    let mut source = MemSource::new(bytes, 4096, Vec::new(alloc));
    read_request(alloc, &mut source).ok()
}

/// What a cache replies in which nothing is found.
fn nothing_found(call: &CacheCall) -> Reply {
    match call {
        CacheCall::Lookup { .. } => Reply::Got { bits: 0, hit: None },
        CacheCall::Insert { .. } => Reply::Made,
        _ => Reply::Done,
    }
}

/// What a call is told where nothing is found. No module asks a link.
fn reply_to(call: &OuterCall, number: u64, reading: u64) -> Option<OuterReply>
    ensures { (reply : OuterReply) → result ≡ Some reply → IsTrue (is_answer call.now reply) }
{
    match call {
        OuterCall::Cache(call) => {
            let reply = nothing_found(call);
            Some(OuterReply::Cache(Stepped { number, reply }))
        }
        OuterCall::Now { .. } => Some(OuterReply::Now(reading)),
        OuterCall::Head { .. }
        | OuterCall::Piece { .. }
        | OuterCall::Close { .. }
        | OuterCall::Log { .. } => Some(OuterReply::Sent),
        _ => None,
    }
}

/// How it ended, and its answered calls; none where it asks a link, or doesn't end within a hundred calls.
fn ended<P: Player>(player: &mut P, given: Given) -> Option<(Outcome, Trace)> {
    for number in 0..100u64 {
        if number == given.stop_at {
            player.stop(Outcome::Unscheduled);
        }
        match player.advance() {
            Turn::Over(outcome) => return Some((outcome, player.take_trace())),
            Turn::Outer(call) => match reply_to(&call, number + 1, given.reading) {
                Some(reply) => player.answer(reply),
                None => return None,
            },
        }
    }
    None
}

fn ended_of(alloc: Global, service: &Service, given: Given) -> Option<(Outcome, Trace)> {
    let incoming = request(alloc)?;
    match Guest::new(alloc, service, 1, incoming.head, incoming.body) {
        Ok(mut guest) => ended(&mut guest, given),
        Err(_) => None,
    }
}

fn played_with(
    alloc: Global,
    linked: &Linked,
    settings: &Settings,
    given: Given,
) -> Option<(Outcome, Trace)>
    requires { linking.linked linked.now.whole ≡ Ok linked.now.links }
{
    let prepared = Prepared::new(alloc, linked.valid()).ok()?;
    match Service::new(alloc, linked, &prepared, settings, given.fuel, 0, [7; 32]) {
        Ok(service) => ended_of(alloc, &service, given),
        Err(_) => None,
    }
}

fn no_settings(alloc: Global) -> Settings {
    Settings {
        backends: BTreeMap::new(alloc),
        dictionaries: BTreeMap::new(alloc),
        configs: BTreeMap::new(alloc),
        secrets: BTreeMap::new(alloc),
        kv: BTreeMap::new(alloc),
    }
}

/// How a guest of the module in these bytes ends, and its answered calls.
pub fn played(alloc: Global, bytes: &[u8], given: Given) -> Option<(Outcome, Trace)> {
    match load(alloc, bytes) {
        Ok(linked) => played_with(alloc, &linked, &no_settings(alloc), given),
        Err(_) => None,
    }
}
