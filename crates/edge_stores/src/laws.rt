//! The law that a call on stores, logs and WASI which doesn't succeed changes nothing.
ghost use Rattle.std.specs.Prelude.{ℕ};
ghost use Rattle.wasm_memory.specs.Linear.{Linear};
ghost use Rattle.edge_abi.specs.Quiet.{RowIsQuiet, RowIsQuietBut};
ghost use Rattle.edge_stores.specs.Logs as logs;
ghost use Rattle.edge_stores.specs.Stores as stores;
ghost use Rattle.edge_stores.specs.Wasi as wasi;

use crate::tables::StoreTables;
use fastly_toml::Settings;

/// Whatever the replies, a row that isn't answered ok, or success, changes neither tables nor memory; one that fills a buffer
/// may write a needed size with buflen. So no random words are used up either.
pub fn refused_store_rows_change_nothing()
    ensures init { (t : StoreTables) (m : Linear) (version : ℕ) → RowIsQuiet t m (stores.abi_init t m version) }
    ensures dictionary_open { (t : StoreTables) (s : Settings) (m : Linear) (p n o : ℕ) → RowIsQuiet t m (stores.dictionary_open t s m p n o) }
    ensures dictionary_get { (t : StoreTables) (s : Settings) (m : Linear) (h p n b room count : ℕ) → RowIsQuietBut t m (stores.dictionary_get t s m h p n b room count) }
    ensures config_open { (t : StoreTables) (s : Settings) (m : Linear) (p n o : ℕ) → RowIsQuiet t m (stores.config_store_open t s m p n o) }
    ensures config_get { (t : StoreTables) (s : Settings) (m : Linear) (h p n b room count : ℕ) → RowIsQuietBut t m (stores.config_store_get t s m h p n b room count) }
    ensures secret_open { (t : StoreTables) (s : Settings) (m : Linear) (p n o : ℕ) → RowIsQuiet t m (stores.secret_store_open t s m p n o) }
    ensures secret_get { (t : StoreTables) (s : Settings) (m : Linear) (h p n o : ℕ) → RowIsQuiet t m (stores.secret_store_get t s m h p n o) }
    ensures plaintext { (t : StoreTables) (m : Linear) (h b room count : ℕ) → RowIsQuietBut t m (stores.secret_store_plaintext t m h b room count) }
    ensures endpoint_get { (t : StoreTables) (m : Linear) (p n o : ℕ) → RowIsQuiet t m (logs.log_endpoint_get t m p n o) }
    ensures log_write { (t : StoreTables) (m : Linear) (h p n o : ℕ) → RowIsQuiet t m (logs.log_write t m h p n o) }
    ensures fd_write { (t : StoreTables) (m : Linear) (fd p count o : ℕ) → RowIsQuiet t m (wasi.wasi_fd_write t m fd p count o) }
    ensures random_get { (t : StoreTables) (m : Linear) (p n : ℕ) → RowIsQuiet t m (wasi.wasi_random_get t m p n) }
    ensures clock_time_get { (t : StoreTables) (m : Linear) (id o : ℕ) → RowIsQuiet t m (wasi.wasi_clock_time_get t m id o) }
    ensures sizes_get { (t : StoreTables) (m : Linear) (o p : ℕ) → RowIsQuiet t m (wasi.wasi_sizes_get t m o p) }
    ensures lists_get { (t : StoreTables) (m : Linear) (p q : ℕ) → RowIsQuiet t m (wasi.wasi_lists_get t m p q) }
{}
