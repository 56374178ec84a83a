//! The rows on stores, logs and those of WASI, by their calls.
ghost use Rattle.std.specs.Prelude.{◌≡◌, IfOk};
ghost use Rattle.edge_abi.specs.declared.asked.Step.TheVariants.{Done};
ghost use Rattle.edge_abi.specs.Goes.{Ends, Goes};
ghost use Rattle.edge_stores.specs.UnderWays.{resumed};
ghost use Rattle.guest_calls.specs.Rows as spec;

use crate::call::{OutsideCall, StoreCall, WasiCall};
use crate::words::Words;
use edge_abi::Status;
use edge_stores::{
    StoreStep, StoreTables, abi_init, config_store_get, config_store_open, dictionary_get,
    dictionary_open, log_endpoint_get, log_write, secret_store_get, secret_store_open,
    secret_store_plaintext, wasi_args_get, wasi_args_sizes_get, wasi_clock_time_get,
    wasi_environ_get, wasi_environ_sizes_get, wasi_fd_write, wasi_random_get,
};
use fastly_toml::Settings;
use std::alloc::{AllocError, Global};
use wasm_memory::Memory;

/// Starts the row of a call; the argument of 64 bits is `init`'s.
pub fn store_row(
    alloc: Global,
    call: StoreCall,
    version: u64,
    words: Words,
    tables: &mut StoreTables,
    settings: &Settings,
    memory: &mut Memory,
) -> Result<Status, AllocError>
    ensures { IfOk result (λ status. Ends (spec.store_row call version words tables.old settings.now memory.old) status tables.new memory.new) }
{
    match call {
        StoreCall::Init => abi_init(alloc, tables, settings, memory, version),
        StoreCall::DictionaryOpen => dictionary_open(
            alloc, tables, settings, memory, words.a, words.b, words.c,
        ),
        StoreCall::DictionaryGet => dictionary_get(
            alloc, tables, settings, memory, words.a, words.b, words.c, words.d, words.e, words.f,
        ),
        StoreCall::ConfigStoreOpen => config_store_open(
            alloc, tables, settings, memory, words.a, words.b, words.c,
        ),
        StoreCall::ConfigStoreGet => config_store_get(
            alloc, tables, settings, memory, words.a, words.b, words.c, words.d, words.e, words.f,
        ),
        StoreCall::SecretStoreOpen => secret_store_open(
            alloc, tables, settings, memory, words.a, words.b, words.c,
        ),
        StoreCall::SecretStoreGet => secret_store_get(
            alloc, tables, settings, memory, words.a, words.b, words.c, words.d,
        ),
        StoreCall::SecretStorePlaintext => secret_store_plaintext(
            alloc, tables, settings, memory, words.a, words.b, words.c, words.d,
        ),
        StoreCall::LogEndpointGet => log_endpoint_get(
            alloc, tables, settings, memory, words.a, words.b, words.c,
        ),
    }
}

/// Starts the row of a call; what it comes to is the number that the call answers.
pub fn wasi_row(
    alloc: Global,
    call: WasiCall,
    words: Words,
    tables: &mut StoreTables,
    settings: &Settings,
    memory: &mut Memory,
) -> Result<u32, AllocError>
    ensures { IfOk result (λ number. Goes resumed (spec.wasi_row call words tables.old memory.old) (Done number) tables.new memory.new) }
{
    match call {
        WasiCall::RandomGet => wasi_random_get(alloc, tables, settings, memory, words.a, words.b),
        WasiCall::EnvironSizesGet => wasi_environ_sizes_get(
            alloc, tables, settings, memory, words.a, words.b,
        ),
        WasiCall::ArgsSizesGet => wasi_args_sizes_get(
            alloc, tables, settings, memory, words.a, words.b,
        ),
        WasiCall::EnvironGet => wasi_environ_get(alloc, tables, settings, memory, words.a, words.b),
        WasiCall::ArgsGet => wasi_args_get(alloc, tables, settings, memory, words.a, words.b),
    }
}

/// Starts the row of a call. The precision of a clock isn't looked at.
pub fn outside_row(
    alloc: Global,
    call: OutsideCall,
    words: Words,
    tables: &mut StoreTables,
    settings: &Settings,
    memory: &mut Memory,
) -> Result<StoreStep, AllocError>
    ensures { IfOk result (λ step. Goes resumed (spec.outside_row call words tables.old memory.old) step tables.new memory.new) }
{
    match call {
        OutsideCall::LogWrite => log_write(
            alloc, tables, settings, memory, words.a, words.b, words.c, words.d,
        ),
        OutsideCall::FdWrite => wasi_fd_write(
            alloc, tables, settings, memory, words.a, words.b, words.c, words.d,
        ),
        OutsideCall::ClockTimeGet => wasi_clock_time_get(
            alloc, tables, settings, memory, words.a, 0, words.c,
        ),
    }
}
