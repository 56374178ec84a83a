//! The heads of answers, and the answers to faults.
ghost use Rattle.std.specs.Prelude.{◌≡◌, ◌≤◌, ◌<◌, ◌++◌, [], IfOk, Option, IsTrue, codes, decimal, not, unwrap_or};
ghost use Rattle.std.specs.Option.{option_map};
ghost use Rattle.edge_body.specs.Heads.{is_status};
ghost use Rattle.http.specs.StatusCode.{code_digits, reason_phrase};
ghost use Rattle.httparse.specs.Ascii.{crlf_bytes};
ghost use Rattle.http_front.specs.Answers.{header_line, is_own, kept_lines, has_no_body, body_line, streamed_line, answer_text, head_text, empty_answer, fault_status};
ghost use Rattle.http_front.specs.Laws.{ArePlain, IsReadAs, answer_fields};

use crate::FrontFault;
use cache_types::{Fields, Octets};
use edge_body::{RequestHead, ResponseHead};
use edge_words::Text;
use http::StatusCode;
use std::alloc::{AllocError, Global};

/// The head of the answer to a request, by which the body's length is told where it is known. `read_back` says that a reader
/// finds the status and the headers in it, where no value has control bytes or blanks at its ends, which no reader takes
/// back.
pub fn answer_head(
    alloc: Global,
    request: &RequestHead,
    response: &ResponseHead,
    length: Option<u64>,
) -> Result<Octets, AllocError>
    ensures text { IfOk result (λ head. head ≡ answer_text request.now response.now length) }
    ensures read_back { IfOk result (λ head. ArePlain response.now.fields
        → IsReadAs response.now.status (answer_fields request.now response.now length) head) }
{
    head_of(alloc, request, response.status(), response.fields(), length)
}

/// The head of these parts.
fn head_of(
    alloc: Global,
    request: &RequestHead,
    status: u16,
    fields: &Fields,
    length: Option<u64>,
) -> Result<Octets, AllocError>
    requires { IsTrue (is_status status) }
    ensures { IfOk result (λ head. head ≡ head_text request.now status fields.now length) }
{
    let text = status_line(Text::new(alloc), status)?;
    let text = headers(text, fields)?;
    let text = body_header(text, request, status, length)?;
    let text = header(text, b"connection", b"close")?.plain(b"\r\n")?;
    Octets::from_vec(text.into_bytes())
}

/// The answer to a fault, where it has one.
pub fn fault_answer(alloc: Global, fault: FrontFault) -> Result<Option<Octets>, AllocError>
    ensures { IfOk result (λ answer. answer ≡ option_map empty_answer (fault_status fault)) }
{
    match fault {
        FrontFault::Bad => Ok(Some(empty_answer(alloc, 400)?)),
        FrontFault::HeadTooLarge => Ok(Some(empty_answer(alloc, 431)?)),
        FrontFault::TooLarge => Ok(Some(empty_answer(alloc, 413)?)),
        FrontFault::Unsupported => Ok(Some(empty_answer(alloc, 501)?)),
        FrontFault::Cut | FrontFault::ReadFault | FrontFault::OutOfMemory => Ok(None),
    }
}

/// The answer for a guest that sends none.
pub fn error_answer(alloc: Global) -> Result<Octets, AllocError>
    ensures { IfOk result (λ answer. answer ≡ empty_answer 500) }
{
    empty_answer(alloc, 500)
}

/// An answer with this status and no body.
fn empty_answer(alloc: Global, status: u16) -> Result<Octets, AllocError>
    requires least { 100 ≤ status }
    requires most { status < 1000 }
    ensures { IfOk result (λ answer. answer ≡ empty_answer status) }
{
    let text = status_line(Text::new(alloc), status)?;
    let text = two_headers(text, b"content-length", b"0", b"connection", b"close")?;
    Octets::from_vec(text.into_bytes())
}

/// Two headers and the empty line after them.
fn two_headers(
    text: Text,
    name: &[u8],
    value: &[u8],
    last: &[u8],
    other: &[u8],
) -> Result<Text, AllocError>
    ensures { IfOk result (λ new. new ≡ text ++ (header_line name.now value.now ++ (header_line last.now other.now ++ crlf_bytes))) }
{
    let text = header(text, name, value)?;
    header(text, last, other)?.plain(b"\r\n")
}

fn status_line(text: Text, status: u16) -> Result<Text, AllocError>
    requires least { 100 ≤ status }
    requires most { status < 1000 }
    ensures { IfOk result (λ new. new ≡ text ++ (codes "HTTP/1.1 " ++ (code_digits status ++ (codes " " ++ (unwrap_or (reason_phrase status) [] ++ crlf_bytes))))) }
{
    start_line(
        text,
        b"HTTP/1.1 ",
        digits(status).as_bytes(),
        phrase(status).as_bytes(),
    )
}

fn start_line(text: Text, version: &[u8], status: &[u8], phrase: &[u8]) -> Result<Text, AllocError>
    ensures { IfOk result (λ new. new ≡ text ++ (version.now ++ (status.now ++ (codes " " ++ (phrase.now ++ crlf_bytes))))) }
{
    text.plain(version)?
        .plain(status)?
        .plain(b" ")?
        .plain(phrase)?
        .plain(b"\r\n")
}

/// The three digits of a status.
fn digits(status: u16) -> &'static str
    requires least { 100 ≤ status }
    requires most { status < 1000 }
    ensures { result.now ≡ code_digits status }
{
    match StatusCode::from_u16(status) {
        Ok(code) => code.as_str(),
        Err(_) => unreachable!(),
    }
}

/// The phrase of a status, empty where it has none.
fn phrase(status: u16) -> &'static str
    requires least { 100 ≤ status }
    requires most { status < 1000 }
    ensures { result.now ≡ unwrap_or (reason_phrase status) [] }
{
    match StatusCode::from_u16(status) {
        Ok(code) => phrase_of(code),
        Err(_) => unreachable!(),
    }
}

fn phrase_of(code: StatusCode) -> &'static str
    ensures { result.now ≡ unwrap_or (reason_phrase code) [] }
{
    match code.canonical_reason() {
        Some(phrase) => phrase,
        None => "",
    }
}

fn header(text: Text, name: &[u8], value: &[u8]) -> Result<Text, AllocError>
    ensures { IfOk result (λ new. new ≡ text ++ header_line name.now value.now) }
{
    text.plain(name)?.plain(b": ")?.plain(value)?.plain(b"\r\n")
}

fn is_own(name: &[u8]) -> bool
    ensures { result ≡ is_own name.now }
{
    name == b"content-length".as_slice()
        || name == b"transfer-encoding".as_slice()
        || name == b"connection".as_slice()
}

fn headers(text: Text, fields: &Fields) -> Result<Text, AllocError>
    ensures { IfOk result (λ new. new ≡ text ++ kept_lines fields.now) }
{
    let mut all = text;
    for field in fields.items() {
        if !is_own(field.name.bytes()) {
            all = header(all, field.name.bytes(), field.value.bytes())?;
        }
    }
    Ok(all)
}

fn has_no_body(method: &Octets, status: u16) -> bool
    ensures { result ≡ has_no_body method.now status }
{
    method.bytes() == b"HEAD".as_slice() || status == 204 || status == 304
}

fn body_header(
    text: Text,
    request: &RequestHead,
    status: u16,
    length: Option<u64>,
) -> Result<Text, AllocError>
    ensures { IfOk result (λ new. new ≡ text ++ body_line request.now.method status request.now.version length) }
{
    if has_no_body(request.method(), status) {
        return Ok(text);
    }
    match length {
        Some(length) => text
            .plain(b"content-length")?
            .plain(b": ")?
            .first_number(length)?
            .plain(b"\r\n"),
        None => streamed_header(text, request.version()),
    }
}

/// Before HTTP/1.1 there are no chunks: the body ends with the connection.
fn streamed_header(text: Text, version: u32) -> Result<Text, AllocError>
    ensures { IfOk result (λ new. new ≡ text ++ streamed_line version) }
{
    if version < 2 {
        return Ok(text);
    }
    header(text, b"transfer-encoding", b"chunked")
}
