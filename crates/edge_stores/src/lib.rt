//! The calls of `fastly_abi`, `fastly_dictionary`, `fastly_config_store`, `fastly_secret_store`, `fastly_log` and
//! `wasi_snapshot_preview1`.
//!
//! What stores hold is what the settings say. Random bytes are the words of one stream of ChaCha with 20 rounds, which the
//! guest's seed and index fix. A number that the guest's own tables don't hold answers badf.
#![tactic(auto)]

mod dictionaries;
mod laws;
mod logs;
mod named;
mod numbers;
mod random;
mod replies;
mod secrets;
mod tables;
mod under_way;
mod vectors;
mod wasi;

pub use dictionaries::{
    abi_init, config_store_get, config_store_open, dictionary_get, dictionary_open,
};
pub use laws::refused_store_rows_change_nothing;
pub use logs::{log_endpoint_get, log_write};
pub use random::wasi_random_get;
pub use replies::store_reply;
pub use secrets::{secret_store_get, secret_store_open, secret_store_plaintext};
pub use tables::StoreTables;
pub use under_way::{StoreStep, UnderWay};
pub use vectors::wasi_fd_write;
pub use wasi::{
    wasi_args_get, wasi_args_sizes_get, wasi_clock_time_get, wasi_environ_get,
    wasi_environ_sizes_get, wasi_proc_exit,
};
