//! Texts that are one request each, whole and with nothing behind it.

ghost use Rattle.std.specs.Prelude.{IfOk};
ghost use Rattle.play_files.specs.Whole.{TellsFront, TellsWhole};

use crate::text_source::TextSource;
use edge_words::LineFault;
use http_front::{FrontFault, Incoming, read_request};
use std::alloc::{AllocError, Global};

/// The request that the bytes begin with.
fn first_request(alloc: Global, bytes: &[u8]) -> Result<Option<Incoming>, AllocError>
    ensures { IfOk result (TellsFront bytes.now) }
{
    let mut source = TextSource::of(bytes);
    match read_request(alloc, &mut source) {
        Ok(incoming) => Ok(Some(incoming)),
        Err(fault) => match fault {
            FrontFault::OutOfMemory => Err(AllocError),
            FrontFault::ReadFault => unreachable!(),
            _ => Ok(None),
        },
    }
}

/// The request that the text is. Where something stands behind a request, the text without its last byte begins with that
/// request too.
pub fn whole_request(alloc: Global, text: &[u8]) -> Result<Incoming, LineFault>
    ensures { TellsWhole text.now result }
{
    let Some(incoming) = first_request(alloc, text)? else {
        return Err(LineFault::Bad);
    };
    let front = &text[..text.len().saturating_sub(1)];
    match first_request(alloc, front)? {
        None => Ok(incoming),
        Some(_) => Err(LineFault::Bad),
    }
}
