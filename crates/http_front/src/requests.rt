//! A whole request, read of a source.
ghost use Rattle.std.specs.Prelude.{◌≡◌, ◌≤◌, ℕ, List, [], ◌++◌, Ok, Err, None, true, IfOk, IfSome, IsTrue, OnErr, IsErrOf, length, ⊤};
ghost use Rattle.edge_outside.specs.Faults.{Rose};
ghost use Rattle.edge_outside.specs.Reads.{Reads, OneRead, failed};
ghost use Rattle.edge_body.specs.Heads.{is_uri, are_fields};
ghost use Rattle.http_text.specs.Fields.{most_body};
ghost use Rattle.http_text.specs.Bodies.{BodyGives, most_ahead};
ghost use Rattle.http_front.specs.declared.heads.Incoming.{Incoming};
ghost use Rattle.http_front.specs.Faults.{front_fault};
ghost use Rattle.http_front.specs.Heads.{IsLargeHead, stated_length, uri_of, request_of};
ghost use Rattle.http_front.specs.Requests.{IsBody, IsWrongBody, IsLargeBody, IsRequest, IsUnfinished, IsCut, IsBad, IsTooLarge, HasHeadFault, Finds};
ghost use Rattle.http_front.specs.Gives.{RequestGives, KnowsSome, StopsAt};

use crate::judge::{is_chunked, stated_length, uri_of};
use crate::reading::read_head;
use crate::{FrontFault, Head, Incoming};
use cache_types::Octets;
use edge_body::RequestHead;
use edge_outside::Source;
use http_text::{Ahead, BodyFault, chunked_body, sized_body};
use std::alloc::{AllocError, Global};

/// The request that a source begins with. Each read is made while no whole request was read; a fault is told by the bytes
/// that were read until then. `read_fault` and `rose` say that a read failed and was counted.
pub fn read_request<S: Source>(alloc: Global, source: &mut S) -> Result<Incoming, FrontFault>
    ensures ok { IfOk result (λ incoming. (text dropped : List ℕ) × IsRequest text incoming
        × Reads (OneRead S.reads S.faults S.content) IsUnfinished source.old [] (text ++ dropped) source.new) }
    ensures bad { IsErrOf result FrontFault.Bad → KnowsSome (OneRead S.reads S.faults S.content) IsUnfinished source.old IsBad source.new }
    ensures large_head { IsErrOf result FrontFault.HeadTooLarge
        → KnowsSome (OneRead S.reads S.faults S.content) IsUnfinished source.old IsLargeHead source.new }
    ensures large { IsErrOf result FrontFault.TooLarge
        → KnowsSome (OneRead S.reads S.faults S.content) IsUnfinished source.old IsTooLarge source.new }
    ensures unsupported { IsErrOf result FrontFault.Unsupported
        → KnowsSome (OneRead S.reads S.faults S.content) IsUnfinished source.old (HasHeadFault FrontFault.Unsupported) source.new }
    ensures cut { IsErrOf result FrontFault.Cut
        → StopsAt (OneRead S.reads S.faults S.content) IsUnfinished source.old (Ok []) IsCut source.new }
    ensures read_fault { IsErrOf result FrontFault.ReadFault
        → StopsAt (OneRead S.reads S.faults S.content) IsUnfinished source.old (Err failed) (λ known. ⊤) source.new }
    ensures memory { IsErrOf result FrontFault.OutOfMemory
        → KnowsSome (OneRead S.reads S.faults S.content) IsUnfinished source.old (λ known. ⊤) source.new }
    ensures rose { IsErrOf result FrontFault.ReadFault → Rose (S.faults source.old) (S.faults source.new) }
    ensures found { IfSome (S.content source.old) (λ content. (text rest : List ℕ) (incoming : Incoming) → IsRequest text incoming
        → content.bytes ≡ text ++ rest → Finds result incoming) }
{
    request(alloc, source)
}

fn request<S: Source>(alloc: Global, source: &mut S) -> Result<Incoming, FrontFault>
    ensures { RequestGives (OneRead S.reads S.faults S.content) source.old result source.new }
{
    let mut ahead = Ahead::new(alloc);
    let head = match read_head(alloc, source, &mut ahead) {
        Ok(head) => head,
        Err(fault) => return Err(fault),
    };
    let length = match stated_length(&head) {
        Ok(length) => length,
        Err(fault) => return Err(fault),
    };
    let body = match read_body(alloc, source, &mut ahead, &head, length) {
        Ok(body) => body,
        Err(fault) => return Err(front_fault(fault)),
    };
    match incoming(alloc, head, body) {
        Ok(incoming) => Ok(incoming),
        Err(_) => Err(FrontFault::OutOfMemory),
    }
}

/// The fault of a request whose body has this fault.
fn front_fault(fault: BodyFault) -> FrontFault
    ensures { result ≡ front_fault fault }
{
    match fault {
        BodyFault::Bad => FrontFault::Bad,
        BodyFault::TooLarge => FrontFault::TooLarge,
        BodyFault::Ended => FrontFault::Cut,
        BodyFault::Failed => FrontFault::ReadFault,
        BodyFault::OutOfMemory => FrontFault::OutOfMemory,
    }
}

fn read_body<S: Source>(
    alloc: Global,
    source: &mut S,
    ahead: &mut Ahead,
    head: &Head,
    stated: usize,
) -> Result<Octets, BodyFault>
    requires few { length ahead.old ≤ most_ahead }
    requires length { stated_length head.now ≡ stated }
    requires fits { stated ≤ most_body }
    ensures { BodyGives (OneRead S.reads S.faults S.content) (IsBody head.now) (IsWrongBody head.now) (IsLargeBody head.now)
        source.old ahead.old result ahead.new source.new }
{
    if is_chunked(head) {
        return chunked_body(alloc, source, ahead);
    }
    sized_body(alloc, source, ahead, stated)
}

/// The request of these parts, as a guest sees it.
fn incoming(alloc: Global, head: Head, body: Octets) -> Result<Incoming, AllocError>
    requires version { head.version ≤ 1 }
    requires uri { IsTrue (is_uri (uri_of head)) }
    requires fields { IsTrue (are_fields head.fields) }
    ensures head { IfOk result (λ incoming. incoming.head ≡ request_of head) }
    ensures body { IfOk result (λ incoming. incoming.body ≡ body) }
{
    let uri = uri_of(alloc, &head)?;
    Ok(Incoming {
        head: RequestHead::new(head.method, uri, head.version + 1, head.fields),
        body,
    })
}
