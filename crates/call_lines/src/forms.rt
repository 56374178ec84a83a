//! The forms of a line: one reader for each call.

ghost use Rattle.std.specs.Prelude.{◌≡◌};
ghost use Rattle.edge_words.specs.Reading.{Gives, mapped, one};
ghost use Rattle.cache_types.specs.declared.calls.CacheCall.TheVariants.{Begin, End};
ghost use Rattle.call_lines.specs.Reading as spec;

use crate::limits::{MOST_READ, is_limited};
use crate::naming::{Naming, named_call, reference};
use crate::options::{headers, terms, writing};
use cache_types::{CacheCall, Octets};
use edge_words::{LineFault, Words};
use script_lines::{Line, Named};
use std::alloc::Global;

fn unnamed(call: CacheCall) -> Line
    ensures { result ≡ spec.bare_line call tt }
{
    Line {
        call,
        named: Named::Nothing,
    }
}

fn bare(naming: Naming, call: CacheCall, words: Words<'_>) -> Result<(Line, Words<'_>), LineFault>
    ensures { Gives (λ read. read) result (mapped (spec.bare_line call) (spec.bare_in naming) words.entry) }
{
    match naming {
        Naming::Marked => Err(LineFault::Bad),
        Naming::Plain => Ok((unnamed(call), words)),
    }
}

fn lookup(alloc: Global, words: Words<'_>) -> Result<(Line, Words<'_>), LineFault>
    ensures { Gives (λ read. read) result (mapped spec.lookup_line spec.lookup_in words.entry) }
{
    let (key, words) = words.hex(alloc)?;
    let (headers, words) = headers(alloc, words)?;
    let key = Octets::from_vec(key)?;
    Ok((unnamed(CacheCall::Lookup { key, headers }), words))
}

fn tx_lookup(alloc: Global, words: Words<'_>) -> Result<(Line, Words<'_>), LineFault>
    ensures { Gives (λ read. read) result (mapped spec.tx_lookup_line spec.lookup_in words.entry) }
{
    let (key, words) = words.hex(alloc)?;
    let (headers, words) = headers(alloc, words)?;
    let key = Octets::from_vec(key)?;
    Ok((unnamed(CacheCall::TxLookup { key, headers }), words))
}

fn insert(alloc: Global, words: Words<'_>) -> Result<(Line, Words<'_>), LineFault>
    ensures { Gives (λ read. read) result (mapped spec.insert_line spec.insert_in words.entry) }
{
    let (key, words) = words.hex(alloc)?;
    let (writing, words) = writing(alloc, words)?;
    let (headers, words) = headers(alloc, words)?;
    let call = CacheCall::Insert {
        key: Octets::from_vec(key)?,
        headers,
        writing,
    };
    Ok((unnamed(call), words))
}

fn purge_kind(words: Words<'_>) -> Result<(bool, Words<'_>), LineFault>
    ensures { Gives (λ read. read) result (one spec.purge_kind_in words.entry) }
{
    let (kind, words) = words.word()?;
    if kind == b"soft".as_slice() {
        return Ok((true, words));
    }
    if kind == b"hard".as_slice() {
        return Ok((false, words));
    }
    Err(LineFault::Bad)
}

fn purge(alloc: Global, words: Words<'_>) -> Result<(Line, Words<'_>), LineFault>
    ensures { Gives (λ read. read) result (mapped spec.purge_line spec.purge_in words.entry) }
{
    let (key, words) = words.hex(alloc)?;
    let (soft, words) = purge_kind(words)?;
    let key = Octets::from_vec(key)?;
    Ok((unnamed(CacheCall::Purge { key, soft }), words))
}

fn tx_insert(
    alloc: Global,
    naming: Naming,
    words: Words<'_>,
) -> Result<(Line, Words<'_>), LineFault>
    ensures { Gives (λ read. read) result (mapped spec.tx_insert_line (spec.tx_insert_in naming) words.entry) }
{
    let (named, words) = reference(naming, words)?;
    let (writing, words) = writing(alloc, words)?;
    let call = CacheCall::TxInsert { tx: 0, writing };
    Ok((Line { call, named }, words))
}

fn tx_update(
    alloc: Global,
    naming: Naming,
    words: Words<'_>,
) -> Result<(Line, Words<'_>), LineFault>
    ensures { Gives (λ read. read) result (mapped spec.tx_update_line (spec.tx_update_in naming) words.entry) }
{
    let (named, words) = reference(naming, words)?;
    let (terms, words) = terms(alloc, words)?;
    let call = CacheCall::TxUpdate { tx: 0, terms };
    Ok((Line { call, named }, words))
}

fn tx_cancel(naming: Naming, words: Words<'_>) -> Result<(Line, Words<'_>), LineFault>
    ensures { Gives (λ read. read) result (mapped spec.tx_cancel_line (spec.named_in naming) words.entry) }
{
    let (named, words) = reference(naming, words)?;
    let call = CacheCall::TxCancel { tx: 0 };
    Ok((Line { call, named }, words))
}

fn close(naming: Naming, words: Words<'_>) -> Result<(Line, Words<'_>), LineFault>
    ensures { Gives (λ read. read) result (mapped spec.close_line (spec.named_in naming) words.entry) }
{
    let (named, words) = reference(naming, words)?;
    let call = CacheCall::Close { tx: 0 };
    Ok((Line { call, named }, words))
}

fn write(alloc: Global, naming: Naming, words: Words<'_>) -> Result<(Line, Words<'_>), LineFault>
    ensures { Gives (λ read. read) result (mapped spec.write_line (spec.write_in naming) words.entry) }
{
    let (named, words) = reference(naming, words)?;
    let (piece, words) = words.hex(alloc)?;
    let call = CacheCall::Write {
        object: 0,
        piece: Octets::from_vec(piece)?,
    };
    Ok((Line { call, named }, words))
}

fn finish(naming: Naming, words: Words<'_>) -> Result<(Line, Words<'_>), LineFault>
    ensures { Gives (λ read. read) result (mapped spec.finish_line (spec.named_in naming) words.entry) }
{
    let (named, words) = reference(naming, words)?;
    let call = CacheCall::Finish { object: 0 };
    Ok((Line { call, named }, words))
}

fn abandon(naming: Naming, words: Words<'_>) -> Result<(Line, Words<'_>), LineFault>
    ensures { Gives (λ read. read) result (mapped spec.abandon_line (spec.named_in naming) words.entry) }
{
    let (named, words) = reference(naming, words)?;
    let call = CacheCall::Abandon { object: 0 };
    Ok((Line { call, named }, words))
}

fn read(naming: Naming, words: Words<'_>) -> Result<(Line, Words<'_>), LineFault>
    ensures { Gives (λ read. read) result (mapped spec.read_line (spec.read_in naming) words.entry) }
{
    let (named, words) = reference(naming, words)?;
    let (place, words) = words.number()?;
    let (most, words) = words.number_from_to(1, u64::from(MOST_READ))?;
    let call = CacheCall::Read {
        hit: 0,
        place,
        most: most as u32,
    };
    Ok((Line { call, named }, words))
}

/// The forms that name no entry.
fn unnamed_form<'a>(
    alloc: Global,
    naming: Naming,
    name: &[u8],
    words: Words<'a>,
) -> Result<(Line, Words<'a>), LineFault>
    ensures { Gives (λ read. read) result (spec.unnamed_form naming name.now words.entry) }
{
    if name == b"lookup".as_slice() {
        return lookup(alloc, words);
    }
    if name == b"txlookup".as_slice() {
        return tx_lookup(alloc, words);
    }
    if name == b"insert".as_slice() {
        return insert(alloc, words);
    }
    if name == b"purge".as_slice() {
        return purge(alloc, words);
    }
    if name == b"begin".as_slice() {
        return bare(naming, CacheCall::Begin, words);
    }
    if name == b"end".as_slice() {
        return bare(naming, CacheCall::End, words);
    }
    Err(LineFault::Bad)
}

/// Those that name a lookup of a transaction, and the others.
fn transaction_form<'a>(
    alloc: Global,
    naming: Naming,
    name: &[u8],
    words: Words<'a>,
) -> Result<(Line, Words<'a>), LineFault>
    ensures { Gives (λ read. read) result (spec.transaction_form naming name.now words.entry) }
{
    if name == b"txinsert".as_slice() {
        return tx_insert(alloc, naming, words);
    }
    if name == b"txupdate".as_slice() {
        return tx_update(alloc, naming, words);
    }
    if name == b"txcancel".as_slice() {
        return tx_cancel(naming, words);
    }
    if name == b"close".as_slice() {
        return close(naming, words);
    }
    unnamed_form(alloc, naming, name, words)
}

/// Those that name an object or a hit, and the others.
fn any_form<'a>(
    alloc: Global,
    naming: Naming,
    name: &[u8],
    words: Words<'a>,
) -> Result<(Line, Words<'a>), LineFault>
    ensures { Gives (λ read. read) result (spec.any_form naming name.now words.entry) }
{
    if name == b"write".as_slice() {
        return write(alloc, naming, words);
    }
    if name == b"finish".as_slice() {
        return finish(naming, words);
    }
    if name == b"abandon".as_slice() {
        return abandon(naming, words);
    }
    if name == b"read".as_slice() {
        return read(naming, words);
    }
    transaction_form(alloc, naming, name, words)
}

/// The line of a call that stands next, and the words after it. Its limits are not looked at.
pub fn read_form(
    alloc: Global,
    naming: Naming,
    words: Words<'_>,
) -> Result<(Line, Words<'_>), LineFault>
    ensures { Gives (λ read. read) result (spec.form_in naming words.entry) }
{
    let (name, words) = words.word()?;
    any_form(alloc, naming, name, words)
}

/// The call of a journal that stands next, within the limits, and the words after it.
pub fn read_call(alloc: Global, words: Words<'_>) -> Result<(CacheCall, Words<'_>), LineFault>
    ensures { Gives (λ read. read) result (spec.call_in words.entry) }
{
    let (line, words) = read_form(alloc, Naming::Plain, words)?;
    let call = named_call(line);
    if is_limited(&call) {
        Ok((call, words))
    } else {
        Err(LineFault::Bad)
    }
}
