//! The next call of a scripted guest, from its lines and what its answered calls are worth.

ghost use Rattle.std.specs.Prelude.{◌≡◌, IfOk};
ghost use Rattle.scripted_guest.specs.Script.{is_got_or_made, value_of, name_in, line_call, next_call, is_asking, is_end_at, is_end_line};

use cache_types::{CacheCall, Copied, Reply};
use script_lines::{Line, Lines, Named, with_name};
use std::alloc::{AllocError, Global};

fn is_got_or_made(reply: &Reply) -> bool
    ensures { result ≡ is_got_or_made reply.now }
{
    matches!(reply, Reply::Got { .. } | Reply::Made)
}

/// What a later line's `@` stands for.
pub fn value_of(number: u64, reply: &Reply) -> u64
    ensures { result ≡ value_of number reply.now }
{
    if is_got_or_made(reply) { number } else { 0 }
}

/// The number that a line names.
fn name_in(values: &[u64], named: Named) -> u64
    ensures { result ≡ name_in values.now named }
{
    match named {
        Named::Nothing => 0,
        Named::Line(n) => {
            if n < values.len() as u64 {
                values[n as usize]
            } else {
                0
            }
        }
        Named::Number(n) => n,
    }
}

/// The call at this place behind the Begin.
fn line_call(
    alloc: Global,
    script: &[Line],
    values: &[u64],
    place: usize,
) -> Result<Option<CacheCall>, AllocError>
    ensures { IfOk result (λ call. call ≡ line_call script.now values.now place) }
{
    if place < script.len() {
        let line = &script[place];
        let name = name_in(values, line.named);
        Ok(Some(with_name(name, line.call.copy(alloc)?)))
    } else if place == script.len() {
        Ok(Some(CacheCall::End))
    } else {
        Ok(None)
    }
}

/// The next call of a guest whose answered calls have these values.
pub fn next_call(
    alloc: Global,
    script: &Lines,
    values: &[u64],
) -> Result<Option<CacheCall>, AllocError>
    ensures { IfOk result (λ call. call ≡ next_call script.now values.now) }
{
    match values.split_first() {
        None => Ok(Some(CacheCall::Begin)),
        Some((_, lines)) => line_call(alloc, script.items(), values, lines.len()),
    }
}

/// The next call is Begin, or one of a line.
pub fn is_asking(script: &Lines, values: &[u64]) -> bool
    ensures { result ≡ is_asking script.now values.now }
{
    match values.split_first() {
        None => true,
        Some((_, lines)) => lines.len() < script.items().len(),
    }
}

/// The next call behind so many values is End.
pub fn is_end_at(script: &Lines, values: &[u64]) -> bool
    ensures { result ≡ is_end_at script.now values.now }
{
    match values.split_first() {
        None => false,
        Some((_, lines)) => is_end_line(script.items(), lines.len()),
    }
}

/// The call at this place is End.
fn is_end_line(script: &[Line], place: usize) -> bool
    ensures { result ≡ is_end_line script.now place }
{
    if place < script.len() {
        matches!(script[place].call, CacheCall::End)
    } else {
        place == script.len()
    }
}
