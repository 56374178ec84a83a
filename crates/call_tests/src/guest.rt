//! A guest without a program: its tables and its memory, and what its calls come to.

use crate::said::{Said, reply_of, say};
use cache_types::{Items, Octets};
use edge_abi::Step;
use edge_body::RequestHead;
use edge_imports::Hostcall;
use fastly_toml::{Settings, Texts};
use guest_calls::{Call, GuestStep, GuestTables, RowCall, Under, goes_on, row, standing};
use std::alloc::{AllocError, Global};
use std::collections::BTreeMap;
use wasm_memory::Memory;
use wasm_types::Value;

/// What `ask` gives where a call waits for a reply, and where a reply is left over. No status has these numbers.
pub const ASKS: u32 = 100;

pub const LEFT_OVER: u32 = 101;

/// A guest of 131,072 bytes of memory.
#[derive(Drop)]
pub struct Guest<'a> {
    pub tables: GuestTables<'a>,
    pub memory: Memory,
}

/// A store `name` with one text at `key`.
fn store(alloc: Global, value: &[u8]) -> Result<BTreeMap<Octets, Texts>, AllocError> {
    let mut texts = BTreeMap::new(alloc);
    let _old = texts.insert(Octets::of(alloc, b"key")?, Octets::of(alloc, value)?)?;
    let mut stores = BTreeMap::new(alloc);
    let _none = stores.insert(Octets::of(alloc, b"name")?, texts)?;
    Ok(stores)
}

/// One store of each kind.
pub fn settings(alloc: Global) -> Result<Settings, AllocError> {
    Ok(Settings {
        backends: BTreeMap::new(alloc),
        dictionaries: store(alloc, b"one")?,
        configs: store(alloc, b"two")?,
        secrets: store(alloc, b"three")?,
        kv: store(alloc, b"four")?,
    })
}

/// A guest that answers `GET http://x/` with the body `hi`. The key of its random words is zeros, and its index 0.
pub fn fresh_guest<'a>(alloc: Global, settings: &'a Settings) -> Result<Guest<'a>, AllocError> {
    let method = Octets::of(alloc, b"GET")?;
    let uri = Octets::of(alloc, b"http://x/")?;
    let head = RequestHead::new(method, uri, 2, Items::of(Vec::new(alloc)));
    let body = Octets::of(alloc, b"hi")?;
    Ok(Guest {
        tables: GuestTables::new(alloc, settings, [0; 32], 0, head, body)?,
        memory: Memory::new(alloc, 2, 2)?,
    })
}

/// An argument as a module gives it: two of them have 64 bits, the version of `init` and how exact a clock is asked for.
fn value_of(call: Hostcall, place: usize, word: u32) -> Value {
    match call {
        Hostcall::AbiInit => Value::I64(u64::from(word)),
        Hostcall::WasiClockTimeGet if place == 1 => Value::I64(u64::from(word)),
        _ => Value::I32(word),
    }
}

fn values_of(alloc: Global, call: Hostcall, words: &[u32]) -> Result<Vec<Value>, AllocError> {
    let mut values = Vec::new(alloc);
    for (place, word) in words.iter().enumerate() {
        values.push(value_of(call, place, *word))?;
    }
    Ok(values)
}

/// How a row begins.
fn begun(
    alloc: Global,
    guest: &mut Guest,
    call: RowCall,
    arguments: &[Value],
) -> Result<GuestStep, AllocError> {
    row(alloc, call, arguments, &mut guest.tables, &mut guest.memory)
}

/// How a row goes on behind a reply.
fn heard(
    alloc: Global,
    guest: &mut Guest,
    under: Under,
    said: Said,
) -> Result<GuestStep, AllocError> {
    let reply = reply_of(alloc, said)?;
    goes_on(alloc, &mut guest.tables, &mut guest.memory, under, &reply)
}

/// The same of a row that has come to this; where it is done, the reply is left over.
fn gone_on(
    alloc: Global,
    guest: &mut Guest,
    step: GuestStep,
    said: Said,
) -> Result<GuestStep, AllocError> {
    match step {
        Step::Done(_) => Ok(Step::Done(LEFT_OVER)),
        Step::Outer(_, under) => heard(alloc, guest, under, said),
    }
}

/// Adds what the outer call says that a row has come to.
fn say_step(step: &GuestStep, told: &mut Vec<u8>) -> Result<(), AllocError> {
    match step {
        Step::Done(_) => Ok(()),
        Step::Outer(asked, _) => say(asked, told),
    }
}

fn number_of(step: &GuestStep) -> u32 {
    match step {
        Step::Done(number) => *number,
        Step::Outer(_, _) => ASKS,
    }
}

/// What a row comes to by these replies, and what its outer calls say.
fn ask_row(
    alloc: Global,
    guest: &mut Guest,
    call: RowCall,
    arguments: &[Value],
    replies: &[Said],
    told: &mut Vec<u8>,
) -> Result<u32, AllocError> {
    let mut step = begun(alloc, guest, call, arguments)?;
    for said in replies {
        say_step(&step, told)?;
        step = gone_on(alloc, guest, step, *said)?;
    }
    Ok(number_of(&step))
}

/// What a call comes to with these arguments, by these replies, and what its outer calls say.
pub fn ask_told(
    alloc: Global,
    guest: &mut Guest,
    call: Hostcall,
    words: &[u32],
    replies: &[Said],
    told: &mut Vec<u8>,
) -> Result<u32, AllocError> {
    let arguments = values_of(alloc, call, words)?;
    match standing(call) {
        Some(Call::Row(call)) => ask_row(alloc, guest, call, &arguments, replies, told),
        _ => Ok(LEFT_OVER),
    }
}

/// What a call answers with these arguments; `ASKS` where it makes an outer call.
pub fn ask(
    alloc: Global,
    guest: &mut Guest,
    call: Hostcall,
    words: &[u32],
) -> Result<u32, AllocError> {
    let mut told = Vec::new(alloc);
    ask_told(alloc, guest, call, words, &[], &mut told)
}
