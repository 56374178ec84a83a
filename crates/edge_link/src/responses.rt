//! The response that bytes hold.
ghost use Rattle.std.specs.Prelude.{◌<◌, IfOk, IsErrOf, length};
ghost use Rattle.http_text.specs.Fields.{most_body};
ghost use Rattle.edge_link.specs.Responses.{IsResponse, HasNoResponseTo};

use crate::ResponseFault;
use crate::bodies::{after, body_at, told_of};
use crate::heads::last_head;
use cache_types::Octets;
use edge_body::ResponseHead;
use http_text::MOST_BODY;
use std::alloc::Global;

/// The response to this method that the bytes hold: its head, and its body. TooLarge is told before anything is read.
pub fn read_response(
    alloc: Global,
    method: &Octets,
    bytes: &[u8],
) -> Result<(ResponseHead, Octets), ResponseFault>
    ensures ok { IfOk result (λ found. IsResponse method.now bytes.now found.0 found.1) }
    ensures large { IsErrOf result ResponseFault.TooLarge → most_body < length bytes.now }
    ensures first { most_body < length bytes.now → IsErrOf result ResponseFault.TooLarge }
    ensures bad { IsErrOf result ResponseFault.BadResponse → HasNoResponseTo method.now bytes.now }
{
    if bytes.len() > MOST_BODY {
        return Err(ResponseFault::TooLarge);
    }
    let Some((head, end)) = last_head(alloc, bytes)? else {
        return Err(ResponseFault::BadResponse);
    };
    let told = told_of(method, &head);
    let Some(body) = body_at(alloc, told, after(bytes, end))? else {
        return Err(ResponseFault::BadResponse);
    };
    let head = ResponseHead::new(head.status, head.version + 1, head.fields);
    Ok((head, body))
}
