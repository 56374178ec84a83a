//! The bytes of a request to a backend.
ghost use Rattle.std.specs.Prelude.{◌≡◌, ◌++◌, IfOk, decimal, length, codes};
ghost use Rattle.httparse.specs.Ascii.{crlf_bytes};
ghost use Rattle.http_front.specs.Answers.{header_line};
ghost use Rattle.edge_link.specs.Targets.{target_of};
ghost use Rattle.edge_link.specs.Requests.{request_line, host_of, is_linked, kept_fields, has_length, length_fields, sent_fields, fields_with, text_with, lines_of, request_text};
ghost use Rattle.edge_link.specs.Laws.{IsSendable, IsSentAs};

use crate::targets::target_of;
use cache_types::{Fields, Octets};
use edge_body::RequestHead;
use edge_words::Text;
use http_text::first_of;
use std::alloc::{AllocError, Global};

/// The bytes of a request with this body to a backend of this authority, which is the host where the request tells none.
/// `read_back` says that a reader finds method, target, headers and body in them, where each is such as a reader takes.
pub fn request_bytes(
    alloc: Global,
    head: &RequestHead,
    body: &Octets,
    authority: &str,
) -> Result<Octets, AllocError>
    ensures text { IfOk result (λ bytes. bytes ≡ request_text head.now body.now authority.now) }
    ensures read_back { IfOk result (λ bytes. IsSendable head.now authority.now
        → IsSentAs head.now.method (target_of head.now.uri) (sent_fields head.now body.now authority.now) body.now bytes) }
{
    let host = host_of(head.fields(), authority.as_bytes());
    let text = text_with(alloc, head, body, host)?;
    Octets::from_vec(text.into_bytes())
}

/// The bytes of a request to this host.
fn text_with(
    alloc: Global,
    head: &RequestHead,
    body: &Octets,
    host: &[u8],
) -> Result<Text, AllocError>
    ensures { IfOk result (λ text. text ≡ text_with head.now body.now host.now) }
{
    let text = request_line(Text::new(alloc), head)?;
    let text = sent_headers(text, head, body, host)?;
    message_end(text, body)
}

/// The empty line, and the body.
fn message_end(text: Text, body: &Octets) -> Result<Text, AllocError>
    ensures { IfOk result (λ new. new ≡ text ++ (crlf_bytes ++ body.now)) }
{
    text.plain(b"\r\n")?.plain(body.bytes())
}

fn request_line(text: Text, head: &RequestHead) -> Result<Text, AllocError>
    ensures { IfOk result (λ new. new ≡ text ++ request_line head.now) }
{
    start_line(
        text,
        head.method().bytes(),
        target_of(head.uri().bytes()),
        b"HTTP/1.1",
    )
}

fn start_line(text: Text, method: &[u8], target: &[u8], version: &[u8]) -> Result<Text, AllocError>
    ensures { IfOk result (λ new. new ≡ text ++ (method.now ++ (codes " " ++ (target.now ++ (codes " " ++ (version.now ++ crlf_bytes)))))) }
{
    let text = text.plain(method)?.plain(b" ")?.plain(target)?;
    version_part(text, version)
}

fn version_part(text: Text, version: &[u8]) -> Result<Text, AllocError>
    ensures { IfOk result (λ new. new ≡ text ++ (codes " " ++ (version.now ++ crlf_bytes))) }
{
    text.plain(b" ")?.plain(version)?.plain(b"\r\n")
}

fn header(text: Text, name: &[u8], value: &[u8]) -> Result<Text, AllocError>
    ensures { IfOk result (λ new. new ≡ text ++ header_line name.now value.now) }
{
    text.plain(name)?.plain(b": ")?.plain(value)?.plain(b"\r\n")
}

/// The headers in their order.
fn sent_headers(
    text: Text,
    head: &RequestHead,
    body: &Octets,
    host: &[u8],
) -> Result<Text, AllocError>
    ensures { IfOk result (λ new. new ≡ text ++ lines_of (fields_with head.now body.now host.now)) }
{
    let text = header(text, b"host", host)?;
    let text = kept_headers(text, head.fields())?;
    let text = length_header(text, head.method(), body)?;
    header(text, b"connection", b"close")
}

/// The first Host of the request, or the backend's authority.
fn host_of<'a>(fields: &'a Fields, authority: &'a [u8]) -> &'a [u8]
    ensures { result.now ≡ host_of fields.now authority.now }
{
    match first_of(fields, b"host") {
        Some(host) => host,
        None => authority,
    }
}

/// The headers that the host writes itself.
fn is_linked(name: &[u8]) -> bool
    ensures { result ≡ is_linked name.now }
{
    name == b"host".as_slice()
        || name == b"content-length".as_slice()
        || name == b"transfer-encoding".as_slice()
        || name == b"connection".as_slice()
}

fn kept_headers(text: Text, fields: &Fields) -> Result<Text, AllocError>
    ensures { IfOk result (λ new. new ≡ text ++ lines_of (kept_fields fields.now)) }
{
    let mut all = text;
    for field in fields.items() {
        if !is_linked(field.name.bytes()) {
            all = header(all, field.name.bytes(), field.value.bytes())?;
        }
    }
    Ok(all)
}

fn has_length(method: &Octets, body: &Octets) -> bool
    ensures { result ≡ has_length method.now body.now }
{
    !body.bytes().is_empty()
        || method.bytes() == b"POST".as_slice()
        || method.bytes() == b"PUT".as_slice()
}

fn length_header(text: Text, method: &Octets, body: &Octets) -> Result<Text, AllocError>
    ensures { IfOk result (λ new. new ≡ text ++ lines_of (length_fields method.now body.now)) }
{
    if !has_length(method, body) {
        return Ok(text);
    }
    length_line(text, body)
}

/// The line that tells a body's length.
fn length_line(text: Text, body: &Octets) -> Result<Text, AllocError>
    ensures { IfOk result (λ new. new ≡ text ++ header_line (codes "content-length") (decimal (length body.now))) }
{
    text.plain(b"content-length")?
        .plain(b": ")?
        .first_number(body.bytes().len() as u64)?
        .plain(b"\r\n")
}
