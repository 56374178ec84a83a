//! What is known of transactions.

ghost use Rattle.std.specs.Prelude.{◌≡◌};
ghost use Rattle.cache_core.specs.Waits.{named_if, ended_by};

use cache_log::{is_done, is_made};
use cache_types::{CacheCall, Entry};
use cache_waiters::{EndingMap, Goals};

/// What an indexed cache knows of transactions and of lookups that were ended. It is exact.
#[derive(Drop)]
pub struct Waits {
    pub goals: Goals,
    pub endings: EndingMap,
}

/// A lookup that a call ended, and whether the call was a close.
#[derive(Debug, Drop, Clone, Copy)]
pub struct Ended {
    pub number: u64,
    pub closed: bool,
}

fn named_if(good: bool, number: u64, closed: bool) -> Option<Ended>
    ensures { result ≡ named_if good number closed }
{
    if good {
        Some(Ended { number, closed })
    } else {
        None
    }
}

/// The lookup that an entry ended by its call.
pub fn ended_by(entry: &Entry) -> Option<Ended>
    ensures { result ≡ ended_by entry.now }
{
    match &entry.call {
        CacheCall::TxInsert { tx, .. } => named_if(is_made(&entry.reply), *tx, false),
        CacheCall::TxUpdate { tx, .. } => named_if(is_done(&entry.reply), *tx, false),
        CacheCall::TxCancel { tx } => named_if(is_done(&entry.reply), *tx, false),
        CacheCall::Close { tx } => named_if(is_done(&entry.reply), *tx, true),
        _ => None,
    }
}
