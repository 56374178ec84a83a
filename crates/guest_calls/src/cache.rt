//! The rows of the cache, by their calls.
ghost use Rattle.std.specs.Prelude.{◌≡◌, IfOk};
ghost use Rattle.edge_abi.specs.Goes.{Ends, Goes};
ghost use Rattle.cache_calls.specs.Replies.{resumed};
ghost use Rattle.cache_calls.specs.Tables.{both};
ghost use Rattle.guest_calls.specs.Rows as spec;

use crate::call::{AskingCall, HandleCall};
use crate::words::Words;
use cache_calls::{
    CacheStep, CacheTables, cache_cache_busy_handle_wait, cache_close, cache_close_busy,
    cache_get_age_ns, cache_get_body, cache_get_length, cache_get_max_age_ns,
    cache_get_stale_while_revalidate_ns, cache_get_state, cache_get_user_metadata, cache_insert,
    cache_lookup, cache_transaction_cancel, cache_transaction_insert,
    cache_transaction_insert_and_stream_back, cache_transaction_lookup,
    cache_transaction_lookup_async, cache_transaction_update, purge_purge_surrogate_key,
};
use edge_abi::Status;
use edge_http_calls::HttpTables;
use std::alloc::{AllocError, Global};
use wasm_memory::Memory;

/// Starts the row of a call, which asks the cache nothing.
pub fn handle_row(
    alloc: Global,
    call: HandleCall,
    words: Words,
    http: &mut HttpTables,
    tables: &mut CacheTables,
    memory: &mut Memory,
) -> Result<Status, AllocError>
    ensures { IfOk result (λ status. Ends (spec.handle_row call words (both http.old tables.old) memory.old) status (both http.new tables.new) memory.new) }
{
    match call {
        HandleCall::TransactionLookupAsync => cache_transaction_lookup_async(
            alloc, http, tables, memory, words.a, words.b, words.c, words.d, words.e,
        ),
        HandleCall::CloseBusy => cache_close_busy(alloc, http, tables, memory, words.a),
        HandleCall::GetState => cache_get_state(alloc, http, tables, memory, words.a, words.b),
        HandleCall::GetUserMetadata => cache_get_user_metadata(
            alloc, http, tables, memory, words.a, words.b, words.c, words.d,
        ),
        HandleCall::GetLength => cache_get_length(alloc, http, tables, memory, words.a, words.b),
        HandleCall::GetMaxAgeNs => cache_get_max_age_ns(
            alloc, http, tables, memory, words.a, words.b,
        ),
        HandleCall::GetStaleWhileRevalidateNs => cache_get_stale_while_revalidate_ns(
            alloc, http, tables, memory, words.a, words.b,
        ),
        HandleCall::GetAgeNs => cache_get_age_ns(alloc, http, tables, memory, words.a, words.b),
        HandleCall::GetBody => cache_get_body(
            alloc, http, tables, memory, words.a, words.b, words.c, words.d,
        ),
    }
}

/// Starts the row of a call, which may ask the cache.
pub fn asking_row(
    alloc: Global,
    call: AskingCall,
    words: Words,
    http: &mut HttpTables,
    tables: &mut CacheTables,
    memory: &mut Memory,
) -> Result<CacheStep, AllocError>
    ensures { IfOk result (λ step. Goes resumed (spec.asking_row call words (both http.old tables.old) memory.old) step (both http.new tables.new) memory.new) }
{
    match call {
        AskingCall::Lookup => cache_lookup(
            alloc, http, tables, memory, words.a, words.b, words.c, words.d, words.e,
        ),
        AskingCall::Insert => cache_insert(
            alloc, http, tables, memory, words.a, words.b, words.c, words.d, words.e,
        ),
        AskingCall::TransactionLookup => cache_transaction_lookup(
            alloc, http, tables, memory, words.a, words.b, words.c, words.d, words.e,
        ),
        AskingCall::BusyHandleWait => cache_cache_busy_handle_wait(
            alloc, http, tables, memory, words.a, words.b,
        ),
        AskingCall::TransactionInsert => cache_transaction_insert(
            alloc, http, tables, memory, words.a, words.b, words.c, words.d,
        ),
        AskingCall::TransactionInsertAndStreamBack => cache_transaction_insert_and_stream_back(
            alloc, http, tables, memory, words.a, words.b, words.c, words.d, words.e,
        ),
        AskingCall::TransactionUpdate => cache_transaction_update(
            alloc, http, tables, memory, words.a, words.b, words.c,
        ),
        AskingCall::TransactionCancel => cache_transaction_cancel(
            alloc, http, tables, memory, words.a,
        ),
        AskingCall::Close => cache_close(alloc, http, tables, memory, words.a),
        AskingCall::PurgeSurrogateKey => purge_purge_surrogate_key(
            alloc, http, tables, memory, words.a, words.b, words.c, words.d,
        ),
    }
}
