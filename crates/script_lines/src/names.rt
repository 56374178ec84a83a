//! The entry that a call names.

ghost use Rattle.std.specs.Prelude.{◌≡◌};
ghost use Rattle.script_lines.specs.Names as spec;

use cache_types::CacheCall;

/// The call with this number in the place of the entry that it names.
pub fn with_name(name: u64, call: CacheCall) -> CacheCall
    ensures { result ≡ spec.with_name name call }
{
    match call {
        CacheCall::TxInsert { writing, .. } => CacheCall::TxInsert { tx: name, writing },
        CacheCall::TxUpdate { terms, .. } => CacheCall::TxUpdate { tx: name, terms },
        CacheCall::TxCancel { .. } => CacheCall::TxCancel { tx: name },
        CacheCall::Close { .. } => CacheCall::Close { tx: name },
        CacheCall::Write { piece, .. } => CacheCall::Write {
            object: name,
            piece,
        },
        CacheCall::Finish { .. } => CacheCall::Finish { object: name },
        CacheCall::Abandon { .. } => CacheCall::Abandon { object: name },
        CacheCall::Read { place, most, .. } => CacheCall::Read {
            hit: name,
            place,
            most,
        },
        call => call,
    }
}
