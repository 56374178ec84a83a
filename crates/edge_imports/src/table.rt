//! The table of calls: module, name, parameters and result of each.

ghost use Rattle.std.specs.Prelude.{◌≡◌, ◌≤◌};
ghost use Rattle.edge_imports.specs.Table.{Row, row_of, asks, body, req, resp, dictionary, config, secret, log, cache, purge, wasi};

use crate::hostcall::Hostcall;
use std::marker::Model;
use wasm_types::ValueType;

/// By what module and name a call is imported, and of what type.
#[derive(Drop)]
pub struct Row {
    pub module_name: &'static [u8],
    pub name: &'static [u8],
    pub params: &'static [ValueType],
    pub result: Option<ValueType>,
}

impl Model for Row {
    ghost use Rattle.edge_imports.specs.Table.{Row};

    ghost Value = { Row };

    ghost view = { λ row. record { module_name = row.module_name.now; name = row.name.now; params = row.params.now; result = row.result } };
}

const WORDS: [ValueType; 8] = [ValueType::I32; 8];

/// A call with so many parameters of 32 bits, which answers a status.
fn asks(module_name: &'static [u8], name: &'static [u8], words: usize) -> Row
    requires { words ≤ 8 }
    ensures { result ≡ asks module_name.now name.now words }
{
    Row {
        module_name,
        name,
        params: &WORDS[..words],
        result: Some(ValueType::I32),
    }
}

fn body(name: &'static [u8], words: usize) -> Row
    requires { words ≤ 8 }
    ensures { result ≡ body name.now words }
{
    asks(b"fastly_http_body", name, words)
}

fn req(name: &'static [u8], words: usize) -> Row
    requires { words ≤ 8 }
    ensures { result ≡ req name.now words }
{
    asks(b"fastly_http_req", name, words)
}

fn resp(name: &'static [u8], words: usize) -> Row
    requires { words ≤ 8 }
    ensures { result ≡ resp name.now words }
{
    asks(b"fastly_http_resp", name, words)
}

fn dictionary(name: &'static [u8], words: usize) -> Row
    requires { words ≤ 8 }
    ensures { result ≡ dictionary name.now words }
{
    asks(b"fastly_dictionary", name, words)
}

fn config(name: &'static [u8], words: usize) -> Row
    requires { words ≤ 8 }
    ensures { result ≡ config name.now words }
{
    asks(b"fastly_config_store", name, words)
}

fn secret(name: &'static [u8], words: usize) -> Row
    requires { words ≤ 8 }
    ensures { result ≡ secret name.now words }
{
    asks(b"fastly_secret_store", name, words)
}

fn log(name: &'static [u8], words: usize) -> Row
    requires { words ≤ 8 }
    ensures { result ≡ log name.now words }
{
    asks(b"fastly_log", name, words)
}

fn cache(name: &'static [u8], words: usize) -> Row
    requires { words ≤ 8 }
    ensures { result ≡ cache name.now words }
{
    asks(b"fastly_cache", name, words)
}

fn purge(name: &'static [u8], words: usize) -> Row
    requires { words ≤ 8 }
    ensures { result ≡ purge name.now words }
{
    asks(b"fastly_purge", name, words)
}

fn wasi(name: &'static [u8], words: usize) -> Row
    requires { words ≤ 8 }
    ensures { result ≡ wasi name.now words }
{
    asks(b"wasi_snapshot_preview1", name, words)
}

impl Hostcall {
    /// The row of the call in the table of calls.
    pub fn row(self) -> Row
        ensures { result ≡ row_of self }
    {
        match self {
            Hostcall::AbiInit => Row {
                module_name: b"fastly_abi",
                name: b"init",
                params: &[ValueType::I64],
                result: Some(ValueType::I32),
            },
            Hostcall::BodyNew => body(b"new", 1),
            Hostcall::BodyAppend => body(b"append", 2),
            Hostcall::BodyRead => body(b"read", 4),
            Hostcall::BodyWrite => body(b"write", 5),
            Hostcall::BodyClose => body(b"close", 1),
            Hostcall::BodyAbandon => body(b"abandon", 1),
            Hostcall::BodyKnownLength => body(b"known_length", 2),
            Hostcall::RequestNew => req(b"new", 1),
            Hostcall::RequestClose => req(b"close", 1),
            Hostcall::RequestHeaderNamesGet => req(b"header_names_get", 6),
            Hostcall::RequestHeaderValueGet => req(b"header_value_get", 6),
            Hostcall::RequestHeaderValuesGet => req(b"header_values_get", 8),
            Hostcall::RequestHeaderValuesSet => req(b"header_values_set", 5),
            Hostcall::RequestHeaderInsert => req(b"header_insert", 5),
            Hostcall::RequestHeaderAppend => req(b"header_append", 5),
            Hostcall::RequestHeaderRemove => req(b"header_remove", 3),
            Hostcall::RequestVersionGet => req(b"version_get", 2),
            Hostcall::RequestVersionSet => req(b"version_set", 2),
            Hostcall::RequestBodyDownstreamGet => req(b"body_downstream_get", 2),
            Hostcall::RequestMethodGet => req(b"method_get", 4),
            Hostcall::RequestMethodSet => req(b"method_set", 3),
            Hostcall::RequestUriGet => req(b"uri_get", 4),
            Hostcall::RequestUriSet => req(b"uri_set", 3),
            Hostcall::ResponseNew => resp(b"new", 1),
            Hostcall::ResponseClose => resp(b"close", 1),
            Hostcall::ResponseHeaderNamesGet => resp(b"header_names_get", 6),
            Hostcall::ResponseHeaderValueGet => resp(b"header_value_get", 6),
            Hostcall::ResponseHeaderValuesGet => resp(b"header_values_get", 8),
            Hostcall::ResponseHeaderValuesSet => resp(b"header_values_set", 5),
            Hostcall::ResponseHeaderInsert => resp(b"header_insert", 5),
            Hostcall::ResponseHeaderAppend => resp(b"header_append", 5),
            Hostcall::ResponseHeaderRemove => resp(b"header_remove", 3),
            Hostcall::ResponseVersionGet => resp(b"version_get", 2),
            Hostcall::ResponseVersionSet => resp(b"version_set", 2),
            Hostcall::ResponseStatusGet => resp(b"status_get", 2),
            Hostcall::ResponseStatusSet => resp(b"status_set", 2),
            Hostcall::ResponseSendDownstream => resp(b"send_downstream", 3),
            Hostcall::DictionaryOpen => dictionary(b"open", 3),
            Hostcall::DictionaryGet => dictionary(b"get", 6),
            Hostcall::ConfigStoreOpen => config(b"open", 3),
            Hostcall::ConfigStoreGet => config(b"get", 6),
            Hostcall::SecretStoreOpen => secret(b"open", 3),
            Hostcall::SecretStoreGet => secret(b"get", 4),
            Hostcall::SecretStorePlaintext => secret(b"plaintext", 4),
            Hostcall::LogEndpointGet => log(b"endpoint_get", 3),
            Hostcall::LogWrite => log(b"write", 4),
            Hostcall::CacheLookup => cache(b"lookup", 5),
            Hostcall::CacheInsert => cache(b"insert", 5),
            Hostcall::CacheTransactionLookup => cache(b"transaction_lookup", 5),
            Hostcall::CacheTransactionLookupAsync => cache(b"transaction_lookup_async", 5),
            Hostcall::CacheBusyHandleWait => cache(b"cache_busy_handle_wait", 2),
            Hostcall::CacheCloseBusy => cache(b"close_busy", 1),
            Hostcall::CacheTransactionInsert => cache(b"transaction_insert", 4),
            Hostcall::CacheTransactionInsertAndStreamBack => cache(
                b"transaction_insert_and_stream_back",
                5,
            ),
            Hostcall::CacheTransactionUpdate => cache(b"transaction_update", 3),
            Hostcall::CacheTransactionCancel => cache(b"transaction_cancel", 1),
            Hostcall::CacheClose => cache(b"close", 1),
            Hostcall::CacheGetState => cache(b"get_state", 2),
            Hostcall::CacheGetUserMetadata => cache(b"get_user_metadata", 4),
            Hostcall::CacheGetLength => cache(b"get_length", 2),
            Hostcall::CacheGetMaxAgeNs => cache(b"get_max_age_ns", 2),
            Hostcall::CacheGetStaleWhileRevalidateNs => cache(b"get_stale_while_revalidate_ns", 2),
            Hostcall::CacheGetAgeNs => cache(b"get_age_ns", 2),
            Hostcall::CacheGetBody => cache(b"get_body", 4),
            Hostcall::PurgeSurrogateKey => purge(b"purge_surrogate_key", 4),
            Hostcall::WasiProcExit => Row {
                module_name: b"wasi_snapshot_preview1",
                name: b"proc_exit",
                params: &[ValueType::I32],
                result: None,
            },
            Hostcall::WasiFdWrite => wasi(b"fd_write", 4),
            Hostcall::WasiRandomGet => wasi(b"random_get", 2),
            Hostcall::WasiClockTimeGet => Row {
                module_name: b"wasi_snapshot_preview1",
                name: b"clock_time_get",
                params: &[ValueType::I32, ValueType::I64, ValueType::I32],
                result: Some(ValueType::I32),
            },
            Hostcall::WasiEnvironSizesGet => wasi(b"environ_sizes_get", 2),
            Hostcall::WasiArgsSizesGet => wasi(b"args_sizes_get", 2),
            Hostcall::WasiEnvironGet => wasi(b"environ_get", 2),
            Hostcall::WasiArgsGet => wasi(b"args_get", 2),
        }
    }
}
