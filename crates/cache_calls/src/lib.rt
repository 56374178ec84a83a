//! The calls of `fastly_cache` and `fastly_purge`.
//!
//! Each row makes at most one call on the cache, behind its refusals, and what the reply becomes is told once for all of them
//! (`cache_reply`). A status other than ok changes neither tables nor memory; a number that the guest's own tables don't hold
//! answers badf.
#![tactic(auto)]

mod found;
mod headers;
mod insertions;
mod keys;
mod kinds;
mod laws;
mod lookups;
mod options;
mod purges;
mod replies;
mod tables;
mod transactions;
mod under_way;
mod writings;

pub use found::{
    cache_get_age_ns, cache_get_body, cache_get_length, cache_get_max_age_ns,
    cache_get_stale_while_revalidate_ns, cache_get_state, cache_get_user_metadata,
};
pub use insertions::{
    cache_insert, cache_transaction_insert, cache_transaction_insert_and_stream_back,
};
pub use kinds::CacheKind;
pub use laws::refused_cache_rows_change_nothing;
pub use lookups::{
    cache_cache_busy_handle_wait, cache_close_busy, cache_lookup, cache_transaction_lookup,
    cache_transaction_lookup_async,
};
pub use purges::purge_purge_surrogate_key;
pub use replies::{Looked, cache_reply};
pub use tables::{BusyHandle, CacheHandle, CacheTables};
pub use transactions::{cache_close, cache_transaction_cancel, cache_transaction_update};
pub use under_way::{Asking, CacheStep, UnderWay};
