//! The list of all calls, and the call that an import names.

ghost use Rattle.std.specs.Prelude.{◌≡◌};
ghost use Rattle.std.specs.List.{find};
ghost use Rattle.edge_imports.specs.Table.{is_named, call_named};

use crate::hostcall::Hostcall;

/// All calls, in the order of the table. The definition of what an import names goes over this list.
pub const HOSTCALLS: [Hostcall; 74] = [
    Hostcall::AbiInit,
    Hostcall::BodyNew,
    Hostcall::BodyAppend,
    Hostcall::BodyRead,
    Hostcall::BodyWrite,
    Hostcall::BodyClose,
    Hostcall::BodyAbandon,
    Hostcall::BodyKnownLength,
    Hostcall::RequestNew,
    Hostcall::RequestClose,
    Hostcall::RequestHeaderNamesGet,
    Hostcall::RequestHeaderValueGet,
    Hostcall::RequestHeaderValuesGet,
    Hostcall::RequestHeaderValuesSet,
    Hostcall::RequestHeaderInsert,
    Hostcall::RequestHeaderAppend,
    Hostcall::RequestHeaderRemove,
    Hostcall::RequestVersionGet,
    Hostcall::RequestVersionSet,
    Hostcall::RequestBodyDownstreamGet,
    Hostcall::RequestMethodGet,
    Hostcall::RequestMethodSet,
    Hostcall::RequestUriGet,
    Hostcall::RequestUriSet,
    Hostcall::ResponseNew,
    Hostcall::ResponseClose,
    Hostcall::ResponseHeaderNamesGet,
    Hostcall::ResponseHeaderValueGet,
    Hostcall::ResponseHeaderValuesGet,
    Hostcall::ResponseHeaderValuesSet,
    Hostcall::ResponseHeaderInsert,
    Hostcall::ResponseHeaderAppend,
    Hostcall::ResponseHeaderRemove,
    Hostcall::ResponseVersionGet,
    Hostcall::ResponseVersionSet,
    Hostcall::ResponseStatusGet,
    Hostcall::ResponseStatusSet,
    Hostcall::ResponseSendDownstream,
    Hostcall::DictionaryOpen,
    Hostcall::DictionaryGet,
    Hostcall::ConfigStoreOpen,
    Hostcall::ConfigStoreGet,
    Hostcall::SecretStoreOpen,
    Hostcall::SecretStoreGet,
    Hostcall::SecretStorePlaintext,
    Hostcall::LogEndpointGet,
    Hostcall::LogWrite,
    Hostcall::CacheLookup,
    Hostcall::CacheInsert,
    Hostcall::CacheTransactionLookup,
    Hostcall::CacheTransactionLookupAsync,
    Hostcall::CacheBusyHandleWait,
    Hostcall::CacheCloseBusy,
    Hostcall::CacheTransactionInsert,
    Hostcall::CacheTransactionInsertAndStreamBack,
    Hostcall::CacheTransactionUpdate,
    Hostcall::CacheTransactionCancel,
    Hostcall::CacheClose,
    Hostcall::CacheGetState,
    Hostcall::CacheGetUserMetadata,
    Hostcall::CacheGetLength,
    Hostcall::CacheGetMaxAgeNs,
    Hostcall::CacheGetStaleWhileRevalidateNs,
    Hostcall::CacheGetAgeNs,
    Hostcall::CacheGetBody,
    Hostcall::PurgeSurrogateKey,
    Hostcall::WasiProcExit,
    Hostcall::WasiFdWrite,
    Hostcall::WasiRandomGet,
    Hostcall::WasiClockTimeGet,
    Hostcall::WasiEnvironSizesGet,
    Hostcall::WasiArgsSizesGet,
    Hostcall::WasiEnvironGet,
    Hostcall::WasiArgsGet,
];

/// Whether the call is imported by this module and name.
fn is_named(from: &[u8], name: &[u8], call: Hostcall) -> bool
    ensures { result ≡ is_named from.now name.now call }
{
    let row = call.row();
    row.module_name == from && row.name == name
}

/// The first of these calls that is.
fn find(calls: &[Hostcall], from: &[u8], name: &[u8]) -> Option<Hostcall>
    ensures { result ≡ find (is_named from.now name.now) calls.now }
{
    calls
        .iter()
        .copied()
        .find(|call| is_named(from, name, *call))
}

/// The call that is imported by this module and name.
#[tactic(auto, unfolding(crate::specs::Table::call_named))]
pub fn call_named(from: &[u8], name: &[u8]) -> Option<Hostcall>
    ensures { result ≡ call_named from.now name.now }
{
    find(&HOSTCALLS, from, name)
}
