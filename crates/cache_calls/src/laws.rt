//! The law that a call on the cache which isn't answered ok changes nothing.
ghost use Rattle.std.specs.Prelude.{ℕ};
ghost use Rattle.wasm_memory.specs.Linear.{Linear};
ghost use Rattle.edge_abi.specs.Quiet.{RowIsQuiet, RowIsQuietBut};
ghost use Rattle.cache_calls.specs.Tables.{HttpAndCache};
ghost use Rattle.cache_calls.specs.Rows as rows;

/// Whatever the replies, a row of the cache that isn't answered ok changes neither tables nor memory; one that fills a buffer
/// may write a needed size with buflen.
pub fn refused_cache_rows_change_nothing()
    ensures lookup { (t : HttpAndCache) (m : Linear) (p n mask q o : ℕ) → RowIsQuiet t m (rows.cache_lookup t m p n mask q o) }
    ensures transaction_lookup { (t : HttpAndCache) (m : Linear) (p n mask q o : ℕ) → RowIsQuiet t m (rows.cache_transaction_lookup t m p n mask q o) }
    ensures transaction_lookup_async { (t : HttpAndCache) (m : Linear) (p n mask q o : ℕ) → RowIsQuiet t m (rows.cache_transaction_lookup_async t m p n mask q o) }
    ensures busy_handle_wait { (t : HttpAndCache) (m : Linear) (h o : ℕ) → RowIsQuiet t m (rows.cache_cache_busy_handle_wait t m h o) }
    ensures close_busy { (t : HttpAndCache) (m : Linear) (h : ℕ) → RowIsQuiet t m (rows.cache_close_busy t m h) }
    ensures insert { (t : HttpAndCache) (m : Linear) (p n mask q o : ℕ) → RowIsQuiet t m (rows.cache_insert t m p n mask q o) }
    ensures transaction_insert { (t : HttpAndCache) (m : Linear) (h mask q o : ℕ) → RowIsQuiet t m (rows.cache_transaction_insert t m h mask q o) }
    ensures stream_back { (t : HttpAndCache) (m : Linear) (h mask q o back : ℕ) → RowIsQuiet t m (rows.cache_transaction_insert_and_stream_back t m h mask q o back) }
    ensures transaction_update { (t : HttpAndCache) (m : Linear) (h mask q : ℕ) → RowIsQuiet t m (rows.cache_transaction_update t m h mask q) }
    ensures transaction_cancel { (t : HttpAndCache) (m : Linear) (h : ℕ) → RowIsQuiet t m (rows.cache_transaction_cancel t m h) }
    ensures close { (t : HttpAndCache) (m : Linear) (h : ℕ) → RowIsQuiet t m (rows.cache_close t m h) }
    ensures get_state { (t : HttpAndCache) (m : Linear) (h o : ℕ) → RowIsQuiet t m (rows.cache_get_state t m h o) }
    ensures get_user_metadata { (t : HttpAndCache) (m : Linear) (h b room count : ℕ) → RowIsQuietBut t m (rows.cache_get_user_metadata t m h b room count) }
    ensures get_length { (t : HttpAndCache) (m : Linear) (h o : ℕ) → RowIsQuiet t m (rows.cache_get_length t m h o) }
    ensures get_max_age { (t : HttpAndCache) (m : Linear) (h o : ℕ) → RowIsQuiet t m (rows.cache_get_max_age_ns t m h o) }
    ensures get_stale { (t : HttpAndCache) (m : Linear) (h o : ℕ) → RowIsQuiet t m (rows.cache_get_stale_while_revalidate_ns t m h o) }
    ensures get_age { (t : HttpAndCache) (m : Linear) (h o : ℕ) → RowIsQuiet t m (rows.cache_get_age_ns t m h o) }
    ensures get_body { (t : HttpAndCache) (m : Linear) (h mask o : ℕ) → RowIsQuiet t m (rows.cache_get_body t m h mask o) }
    ensures purge { (t : HttpAndCache) (m : Linear) (p n mask : ℕ) → RowIsQuiet t m (rows.purge_purge_surrogate_key t m p n mask) }
{}
