//! Bodies read of a source: of a stated length, and in chunks.
ghost use Rattle.std.specs.Prelude.{◌≡◌, ◌≤◌, length};
ghost use Rattle.edge_outside.specs.Reads.{OneRead};
ghost use Rattle.http_text.specs.Fields.{most_body};
ghost use Rattle.http_text.specs.Chunks.{IsChunked, GoesWrong, GoesOver};
ghost use Rattle.http_text.specs.Bodies.{IsSized, BodyGives, NeverSo, body_fault, most_ahead};

use crate::{AfterChunks, Ahead, BodyFault, NoBytes, PIECE, take_chunks};
use cache_types::Octets;
use edge_outside::Source;
use std::alloc::Global;

/// Why the body isn't whole, where a read gave no more.
fn ended(fault: NoBytes) -> BodyFault
    ensures { result ≡ body_fault fault }
{
    match fault {
        NoBytes::Ended => BodyFault::Ended,
        NoBytes::Failed => BodyFault::Failed,
        NoBytes::OutOfMemory => BodyFault::OutOfMemory,
    }
}

/// A body of so many bytes.
pub fn sized_body<S: Source>(
    alloc: Global,
    source: &mut S,
    ahead: &mut Ahead,
    length: usize,
) -> Result<Octets, BodyFault>
    requires { length ≤ most_body }
    ensures { BodyGives (OneRead S.reads S.faults S.content) (IsSized length) NeverSo NeverSo source.old ahead.old result ahead.new source.new }
{
    while ahead.bytes().len() < length {
        if let Err(fault) = ahead.fill(source, PIECE) {
            return Err(ended(fault));
        }
    }
    let Ok(body) = Octets::of(alloc, &ahead.bytes()[..length]) else {
        return Err(BodyFault::OutOfMemory);
    };
    ahead.pass(length);
    Ok(body)
}

/// A body in chunks.
pub fn chunked_body<S: Source>(
    alloc: Global,
    source: &mut S,
    ahead: &mut Ahead,
) -> Result<Octets, BodyFault>
    requires { length ahead.old ≤ most_ahead }
    ensures { BodyGives (OneRead S.reads S.faults S.content) IsChunked GoesWrong GoesOver source.old ahead.old result ahead.new source.new }
{
    let mut body = Vec::new(alloc);
    loop {
        let Ok((used, then)) = take_chunks(ahead.bytes(), &mut body) else {
            return Err(BodyFault::OutOfMemory);
        };
        ahead.pass(used);
        match then {
            AfterChunks::Last(end) => {
                let Ok(body) = Octets::from_vec(body) else {
                    return Err(BodyFault::OutOfMemory);
                };
                ahead.pass(end);
                return Ok(body);
            }
            AfterChunks::Open => {}
            AfterChunks::Over => return Err(BodyFault::TooLarge),
            AfterChunks::Bad => return Err(BodyFault::Bad),
        }
        if let Err(fault) = ahead.fill(source, PIECE) {
            return Err(ended(fault));
        }
    }
}
