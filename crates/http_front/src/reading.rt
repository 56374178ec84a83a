//! The head of a request, read of a source. It is looked at where a line ended, so that a head that comes byte by byte
//! isn't looked at for each byte, and not while there are empty lines alone.
ghost use Rattle.std.specs.Prelude.{◌≡◌, ◌<◌, ◌≤◌, ◌+◌, [], ℕ, List, length, take, drop, map, IfOk, IfSome, IfErr, IsErrOf, Ok, None};
ghost use Rattle.std.specs.List.{list_all};
ghost use Rattle.edge_outside.specs.Reads.{OneRead};
ghost use Rattle.httparse.specs.Grammar.{RequestHead, ReadsRequest, HasNoRequest, NeverHasRequest, print_request};
ghost use Rattle.httparse.specs.Pieces.{is_newline};
ghost use Rattle.httparse.specs.Spans.{RequestOverflows, RequestExceeds};
ghost use Rattle.http_text.specs.Fields.{most_headers};
ghost use Rattle.http_front.specs.Faults.{IsOfHead, EndsAs, StopsAs};
ghost use Rattle.http_front.specs.Heads.{head_of, most_head};
ghost use Rattle.http_front.specs.Gives.{HeadGives, HasHead};

use crate::{FrontFault, Head};
use cache_types::Octets;
use edge_outside::Source;
use http_text::{Ahead, NoBytes, fields_at, has_line_feed};
use httparse::spans::{EMPTY_HEADER_SPAN, parse_request};
use httparse::{Error, Status};
use std::alloc::Global;

/// The greatest length of a head.
const MOST_HEAD: usize = 65_536;

/// The greatest count of headers.
const MOST_HEADERS: usize = 100;

/// The head at the front, with its length, or None where it isn't whole yet.
fn whole_head(alloc: Global, bytes: &[u8]) -> Result<Option<(Head, usize)>, FrontFault>
    ensures whole { IfOk result (λ found. IfSome found (λ f. HasHead bytes.now f.0 f.1)) }
    ensures within { IfOk result (λ found. IfSome found (λ f. f.1 ≤ length bytes.now)) }
    ensures kinds { IfErr result IsOfHead }
    ensures partial { result ≡ Ok None → HasNoRequest bytes.now }
    ensures bad { IsErrOf result FrontFault.Bad → NeverHasRequest bytes.now }
    ensures many { IsErrOf result FrontFault.HeadTooLarge → RequestOverflows most_headers bytes.now }
    ensures headers { IsErrOf result FrontFault.HeadTooLarge → RequestExceeds most_headers bytes.now }
{
    let mut headers = [EMPTY_HEADER_SPAN; MOST_HEADERS];
    match parse_request(bytes, &mut headers) {
        Ok(Status::Complete(spans)) => {
            let fields = fields_at(alloc, bytes, &headers[..spans.headers])?;
            let head = Head {
                method: Octets::of(alloc, spans.method.of(bytes))?,
                target: Octets::of(alloc, spans.path.of(bytes))?,
                version: u32::from(spans.version),
                fields,
            };
            Ok(Some((head, spans.len)))
        }
        Ok(Status::Partial) => Ok(None),
        Err(Error::TooManyHeaders) => Err(FrontFault::HeadTooLarge),
        Err(_) => Err(FrontFault::Bad),
    }
}

fn is_newline(byte: u8) -> bool
    ensures { result ≡ is_newline byte }
{
    byte == b'\r' || byte == b'\n'
}

fn are_newlines(bytes: &[u8]) -> bool
    ensures { result ≡ list_all is_newline bytes.now }
{
    bytes.iter().all(|byte| is_newline(*byte))
}

/// There are empty lines alone, where it is known of the first `seen` bytes.
fn are_empty_lines(bytes: &[u8], seen: usize, before: bool) -> bool
    requires before { before ≡ list_all is_newline (take seen bytes.now) }
    requires within { seen ≤ length bytes.now }
    ensures { result ≡ list_all is_newline bytes.now }
{
    before && are_newlines(&bytes[seen..])
}

/// The same where the first `seen` bytes have no head: only a line's end behind them can have made one, and not while
/// there are empty lines alone.
fn next_head(
    alloc: Global,
    bytes: &[u8],
    seen: usize,
    empty: bool,
) -> Result<Option<(Head, usize)>, FrontFault>
    requires seen { HasNoRequest (take seen bytes.now) }
    requires within { seen ≤ length bytes.now }
    requires empty { empty ≡ list_all is_newline bytes.now }
    ensures whole { IfOk result (λ found. IfSome found (λ f. HasHead bytes.now f.0 f.1)) }
    ensures within { IfOk result (λ found. IfSome found (λ f. f.1 ≤ length bytes.now)) }
    ensures kinds { IfErr result IsOfHead }
    ensures partial { result ≡ Ok None → HasNoRequest bytes.now }
    ensures bad { IsErrOf result FrontFault.Bad → NeverHasRequest bytes.now }
    ensures many { IsErrOf result FrontFault.HeadTooLarge → RequestOverflows most_headers bytes.now }
    ensures headers { IsErrOf result FrontFault.HeadTooLarge → RequestExceeds most_headers bytes.now }
{
    if empty {
        return Ok(None);
    }
    if !has_line_feed(bytes, seen) {
        return Ok(None);
    }
    whole_head(alloc, bytes)
}

/// Why bytes that have no head have none, where the input ended with them.
fn ended(bytes: &[u8]) -> FrontFault
    requires { HasNoRequest bytes.now }
    ensures { EndsAs bytes.now result }
{
    let mut headers = [EMPTY_HEADER_SPAN; MOST_HEADERS];
    match parse_request(bytes, &mut headers) {
        Ok(Status::Complete(_)) => unreachable!(),
        Ok(Status::Partial) => FrontFault::Cut,
        Err(Error::TooManyHeaders) => FrontFault::HeadTooLarge,
        Err(_) => FrontFault::Bad,
    }
}

/// Why there is no head, where a read gave no more.
fn stopped(bytes: &[u8], fault: NoBytes) -> FrontFault
    requires { HasNoRequest bytes.now }
    ensures { StopsAs bytes.now fault result }
{
    match fault {
        NoBytes::Ended => ended(bytes),
        NoBytes::Failed => FrontFault::ReadFault,
        NoBytes::OutOfMemory => FrontFault::OutOfMemory,
    }
}

/// The head of a request.
pub fn read_head<S: Source>(
    alloc: Global,
    source: &mut S,
    ahead: &mut Ahead,
) -> Result<Head, FrontFault>
    requires { ahead.old ≡ [] }
    ensures gives { HeadGives (OneRead S.reads S.faults S.content) source.old result ahead.new source.new }
    ensures few { length ahead.new ≤ most_head }
{
    let mut seen = 0;
    let mut empty = true;
    loop {
        empty = are_empty_lines(ahead.bytes(), seen, empty);
        match next_head(alloc, ahead.bytes(), seen, empty) {
            Ok(Some((head, len))) => {
                ahead.pass(len);
                return Ok(head);
            }
            Ok(None) => {}
            Err(fault) => return Err(fault),
        }
        seen = ahead.bytes().len();
        if seen >= MOST_HEAD {
            return Err(FrontFault::HeadTooLarge);
        }
        if let Err(fault) = ahead.fill(source, MOST_HEAD - seen) {
            return Err(stopped(ahead.bytes(), fault));
        }
    }
}
