//! The calls whose code stands.
ghost use Rattle.std.specs.Prelude.{◌≡◌};
ghost use Rattle.guest_calls.specs.Calls.{standing};

use edge_imports::Hostcall;

/// A call of `fastly_http_req`, but for those on headers.
#[derive(Clone, Copy, Debug, PartialEq, Eq)]
pub enum RequestCall {
    New,
    Close,
    VersionGet,
    VersionSet,
    BodyDownstreamGet,
    MethodGet,
    MethodSet,
    UriGet,
    UriSet,
}

/// A call of `fastly_http_resp`, but for those on headers.
#[derive(Clone, Copy, Debug, PartialEq, Eq)]
pub enum ResponseCall {
    New,
    Close,
    VersionGet,
    VersionSet,
    StatusGet,
    StatusSet,
}

/// A call on headers, of requests and responses alike.
#[derive(Clone, Copy, Debug, PartialEq, Eq)]
pub enum HeaderCall {
    NamesGet,
    ValueGet,
    ValuesGet,
    ValuesSet,
    Insert,
    Append,
    Remove,
}

/// A call of `fastly_http_body` that makes no outer call.
#[derive(Clone, Copy, Debug, PartialEq, Eq)]
pub enum BodyCall {
    New,
    KnownLength,
}

/// A call on requests, responses and bodies that makes no outer call.
#[derive(Clone, Copy, Debug, PartialEq, Eq)]
pub enum HttpCall {
    Request(RequestCall),
    RequestHeaders(HeaderCall),
    Response(ResponseCall),
    ResponseHeaders(HeaderCall),
    Body(BodyCall),
}

/// A call on the parts of bodies, which are read, written on and ended: the others of `fastly_http_body`, and
/// `send_downstream` of `fastly_http_resp`.
#[derive(Clone, Copy, Debug, PartialEq, Eq)]
pub enum PartsCall {
    Append,
    Read,
    Write,
    Close,
    Abandon,
    SendDownstream,
}

/// A call on versions, stores and log endpoints that makes no outer call.
#[derive(Clone, Copy, Debug, PartialEq, Eq)]
pub enum StoreCall {
    Init,
    DictionaryOpen,
    DictionaryGet,
    ConfigStoreOpen,
    ConfigStoreGet,
    SecretStoreOpen,
    SecretStoreGet,
    SecretStorePlaintext,
    LogEndpointGet,
}

/// A call of WASI that makes no outer call.
#[derive(Clone, Copy, Debug, PartialEq, Eq)]
pub enum WasiCall {
    RandomGet,
    EnvironSizesGet,
    ArgsSizesGet,
    EnvironGet,
    ArgsGet,
}

/// A call that logs a line or reads a clock.
#[derive(Clone, Copy, Debug, PartialEq, Eq)]
pub enum OutsideCall {
    LogWrite,
    FdWrite,
    ClockTimeGet,
}

/// A call of `fastly_cache` that asks the cache nothing.
#[derive(Clone, Copy, Debug, PartialEq, Eq)]
pub enum HandleCall {
    TransactionLookupAsync,
    CloseBusy,
    GetState,
    GetUserMetadata,
    GetLength,
    GetMaxAgeNs,
    GetStaleWhileRevalidateNs,
    GetAgeNs,
    GetBody,
}

/// A call that asks the cache: the others of `fastly_cache`, and that of `fastly_purge`.
#[derive(Clone, Copy, Debug, PartialEq, Eq)]
pub enum AskingCall {
    Lookup,
    Insert,
    TransactionLookup,
    BusyHandleWait,
    TransactionInsert,
    TransactionInsertAndStreamBack,
    TransactionUpdate,
    TransactionCancel,
    Close,
    PurgeSurrogateKey,
}

/// A call that answers a number, by the crate that has its row.
#[derive(Clone, Copy, Debug, PartialEq, Eq)]
pub enum RowCall {
    Http(HttpCall),
    Parts(PartsCall),
    Store(StoreCall),
    Wasi(WasiCall),
    Outside(OutsideCall),
    Handle(HandleCall),
    Asking(AskingCall),
}

/// A call whose code stands.
#[derive(Clone, Copy, Debug, PartialEq, Eq)]
pub enum Call {
    /// `proc_exit` of WASI, which ends the guest.
    Exit,
    Row(RowCall),
}

fn store(call: StoreCall) -> Option<Call>
    ensures { result ≡ Some (Call.Row (RowCall.Store call)) }
{
    Some(Call::Row(RowCall::Store(call)))
}

fn wasi(call: WasiCall) -> Option<Call>
    ensures { result ≡ Some (Call.Row (RowCall.Wasi call)) }
{
    Some(Call::Row(RowCall::Wasi(call)))
}

fn outside(call: OutsideCall) -> Option<Call>
    ensures { result ≡ Some (Call.Row (RowCall.Outside call)) }
{
    Some(Call::Row(RowCall::Outside(call)))
}

fn handle(call: HandleCall) -> Option<Call>
    ensures { result ≡ Some (Call.Row (RowCall.Handle call)) }
{
    Some(Call::Row(RowCall::Handle(call)))
}

fn asking(call: AskingCall) -> Option<Call>
    ensures { result ≡ Some (Call.Row (RowCall.Asking call)) }
{
    Some(Call::Row(RowCall::Asking(call)))
}

fn http(call: HttpCall) -> Option<Call>
    ensures { result ≡ Some (Call.Row (RowCall.Http call)) }
{
    Some(Call::Row(RowCall::Http(call)))
}

fn request(call: RequestCall) -> Option<Call>
    ensures { result ≡ Some (Call.Row (RowCall.Http (HttpCall.Request call))) }
{
    http(HttpCall::Request(call))
}

fn request_headers(call: HeaderCall) -> Option<Call>
    ensures { result ≡ Some (Call.Row (RowCall.Http (HttpCall.RequestHeaders call))) }
{
    http(HttpCall::RequestHeaders(call))
}

fn response(call: ResponseCall) -> Option<Call>
    ensures { result ≡ Some (Call.Row (RowCall.Http (HttpCall.Response call))) }
{
    http(HttpCall::Response(call))
}

fn response_headers(call: HeaderCall) -> Option<Call>
    ensures { result ≡ Some (Call.Row (RowCall.Http (HttpCall.ResponseHeaders call))) }
{
    http(HttpCall::ResponseHeaders(call))
}

fn body(call: BodyCall) -> Option<Call>
    ensures { result ≡ Some (Call.Row (RowCall.Http (HttpCall.Body call))) }
{
    http(HttpCall::Body(call))
}

fn parts(call: PartsCall) -> Option<Call>
    ensures { result ≡ Some (Call.Row (RowCall.Parts call)) }
{
    Some(Call::Row(RowCall::Parts(call)))
}

/// The call, where its code stands.
pub fn standing(call: Hostcall) -> Option<Call>
    ensures { result ≡ standing call }
{
    match call {
        Hostcall::AbiInit => store(StoreCall::Init),
        Hostcall::BodyNew => body(BodyCall::New),
        Hostcall::BodyAppend => parts(PartsCall::Append),
        Hostcall::BodyRead => parts(PartsCall::Read),
        Hostcall::BodyWrite => parts(PartsCall::Write),
        Hostcall::BodyClose => parts(PartsCall::Close),
        Hostcall::BodyAbandon => parts(PartsCall::Abandon),
        Hostcall::BodyKnownLength => body(BodyCall::KnownLength),
        Hostcall::RequestNew => request(RequestCall::New),
        Hostcall::RequestClose => request(RequestCall::Close),
        Hostcall::RequestHeaderNamesGet => request_headers(HeaderCall::NamesGet),
        Hostcall::RequestHeaderValueGet => request_headers(HeaderCall::ValueGet),
        Hostcall::RequestHeaderValuesGet => request_headers(HeaderCall::ValuesGet),
        Hostcall::RequestHeaderValuesSet => request_headers(HeaderCall::ValuesSet),
        Hostcall::RequestHeaderInsert => request_headers(HeaderCall::Insert),
        Hostcall::RequestHeaderAppend => request_headers(HeaderCall::Append),
        Hostcall::RequestHeaderRemove => request_headers(HeaderCall::Remove),
        Hostcall::RequestVersionGet => request(RequestCall::VersionGet),
        Hostcall::RequestVersionSet => request(RequestCall::VersionSet),
        Hostcall::RequestBodyDownstreamGet => request(RequestCall::BodyDownstreamGet),
        Hostcall::RequestMethodGet => request(RequestCall::MethodGet),
        Hostcall::RequestMethodSet => request(RequestCall::MethodSet),
        Hostcall::RequestUriGet => request(RequestCall::UriGet),
        Hostcall::RequestUriSet => request(RequestCall::UriSet),
        Hostcall::ResponseNew => response(ResponseCall::New),
        Hostcall::ResponseClose => response(ResponseCall::Close),
        Hostcall::ResponseHeaderNamesGet => response_headers(HeaderCall::NamesGet),
        Hostcall::ResponseHeaderValueGet => response_headers(HeaderCall::ValueGet),
        Hostcall::ResponseHeaderValuesGet => response_headers(HeaderCall::ValuesGet),
        Hostcall::ResponseHeaderValuesSet => response_headers(HeaderCall::ValuesSet),
        Hostcall::ResponseHeaderInsert => response_headers(HeaderCall::Insert),
        Hostcall::ResponseHeaderAppend => response_headers(HeaderCall::Append),
        Hostcall::ResponseHeaderRemove => response_headers(HeaderCall::Remove),
        Hostcall::ResponseVersionGet => response(ResponseCall::VersionGet),
        Hostcall::ResponseVersionSet => response(ResponseCall::VersionSet),
        Hostcall::ResponseStatusGet => response(ResponseCall::StatusGet),
        Hostcall::ResponseStatusSet => response(ResponseCall::StatusSet),
        Hostcall::ResponseSendDownstream => parts(PartsCall::SendDownstream),
        Hostcall::DictionaryOpen => store(StoreCall::DictionaryOpen),
        Hostcall::DictionaryGet => store(StoreCall::DictionaryGet),
        Hostcall::ConfigStoreOpen => store(StoreCall::ConfigStoreOpen),
        Hostcall::ConfigStoreGet => store(StoreCall::ConfigStoreGet),
        Hostcall::SecretStoreOpen => store(StoreCall::SecretStoreOpen),
        Hostcall::SecretStoreGet => store(StoreCall::SecretStoreGet),
        Hostcall::SecretStorePlaintext => store(StoreCall::SecretStorePlaintext),
        Hostcall::LogEndpointGet => store(StoreCall::LogEndpointGet),
        Hostcall::LogWrite => outside(OutsideCall::LogWrite),
        Hostcall::CacheLookup => asking(AskingCall::Lookup),
        Hostcall::CacheInsert => asking(AskingCall::Insert),
        Hostcall::CacheTransactionLookup => asking(AskingCall::TransactionLookup),
        Hostcall::CacheTransactionLookupAsync => handle(HandleCall::TransactionLookupAsync),
        Hostcall::CacheBusyHandleWait => asking(AskingCall::BusyHandleWait),
        Hostcall::CacheCloseBusy => handle(HandleCall::CloseBusy),
        Hostcall::CacheTransactionInsert => asking(AskingCall::TransactionInsert),
        Hostcall::CacheTransactionInsertAndStreamBack => asking(
            AskingCall::TransactionInsertAndStreamBack,
        ),
        Hostcall::CacheTransactionUpdate => asking(AskingCall::TransactionUpdate),
        Hostcall::CacheTransactionCancel => asking(AskingCall::TransactionCancel),
        Hostcall::CacheClose => asking(AskingCall::Close),
        Hostcall::CacheGetState => handle(HandleCall::GetState),
        Hostcall::CacheGetUserMetadata => handle(HandleCall::GetUserMetadata),
        Hostcall::CacheGetLength => handle(HandleCall::GetLength),
        Hostcall::CacheGetMaxAgeNs => handle(HandleCall::GetMaxAgeNs),
        Hostcall::CacheGetStaleWhileRevalidateNs => handle(HandleCall::GetStaleWhileRevalidateNs),
        Hostcall::CacheGetAgeNs => handle(HandleCall::GetAgeNs),
        Hostcall::CacheGetBody => handle(HandleCall::GetBody),
        Hostcall::PurgeSurrogateKey => asking(AskingCall::PurgeSurrogateKey),
        Hostcall::WasiProcExit => Some(Call::Exit),
        Hostcall::WasiFdWrite => outside(OutsideCall::FdWrite),
        Hostcall::WasiRandomGet => wasi(WasiCall::RandomGet),
        Hostcall::WasiClockTimeGet => outside(OutsideCall::ClockTimeGet),
        Hostcall::WasiEnvironSizesGet => wasi(WasiCall::EnvironSizesGet),
        Hostcall::WasiArgsSizesGet => wasi(WasiCall::ArgsSizesGet),
        Hostcall::WasiEnvironGet => wasi(WasiCall::EnvironGet),
        Hostcall::WasiArgsGet => wasi(WasiCall::ArgsGet),
    }
}
