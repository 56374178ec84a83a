//! The head of a response behind its interim heads.
ghost use Rattle.std.specs.Prelude.{◌≡◌, ◌≤◌, length, IfOk, IfSome, IsTrue, Ok, None};
ghost use Rattle.edge_body.specs.Heads.{is_status, are_fields};
ghost use Rattle.edge_link.specs.Heads.{is_interim, HasHead, HasNoSmallHead, Leads, HasNoLast};

use crate::bodies::after;
use cache_types::Fields;
use edge_body::is_status;
use http_text::fields_at;
use httparse::Status;
use httparse::spans::{EMPTY_HEADER_SPAN, parse_response};
use std::alloc::{AllocError, Global};

/// The greatest count of headers.
const MOST_HEADERS: usize = 100;

/// The parts of a response's head as they stand in its text, names in lower case. The version is 0 or 1 for HTTP/1.0 and
/// 1.1.
#[derive(Debug, Drop)]
pub struct Head {
    pub status: u16,
    pub version: u32,
    pub fields: Fields,
}

/// The status of a head that may come before a response's own: from 100 to 199, but not 101.
fn is_interim(status: u16) -> bool
    ensures { result ≡ is_interim status }
{
    100 <= status && status <= 199 && status != 101
}

/// The head at the front, with its length, or None where there is none with room for its headers.
fn head_at(alloc: Global, bytes: &[u8]) -> Result<Option<(Head, usize)>, AllocError>
    ensures some { IfOk result (λ found. IfSome found (λ f. HasHead bytes.now f.0 f.1)) }
    ensures within { IfOk result (λ found. IfSome found (λ f. f.1 ≤ length bytes.now)) }
    ensures none { result ≡ Ok None → HasNoSmallHead bytes.now }
{
    let mut headers = [EMPTY_HEADER_SPAN; MOST_HEADERS];
    match parse_response(bytes, &mut headers) {
        Ok(Status::Complete(spans)) => {
            let fields = fields_at(alloc, bytes, &headers[..spans.headers])?;
            let head = Head {
                status: spans.code,
                version: u32::from(spans.version),
                fields,
            };
            Ok(Some((head, spans.len)))
        }
        Ok(Status::Partial) => Ok(None),
        Err(_) => Ok(None),
    }
}

/// The head that is no interim one, and where it ends.
pub fn last_head(alloc: Global, bytes: &[u8]) -> Result<Option<(Head, usize)>, AllocError>
    ensures some { IfOk result (λ found. IfSome found (λ f. Leads bytes.now f.0 f.1)) }
    ensures within { IfOk result (λ found. IfSome found (λ f. f.1 ≤ length bytes.now)) }
    ensures none { result ≡ Ok None → HasNoLast bytes.now }
{
    let mut at = 0;
    loop {
        match head_at(alloc, after(bytes, at)) {
            Ok(Some((head, len))) => {
                at += len;
                if is_status(head.status) {
                    return Ok(Some((head, at)));
                }
                if !is_interim(head.status) {
                    return Ok(None);
                }
            }
            Ok(None) => return Ok(None),
            Err(fault) => return Err(fault),
        }
    }
}
