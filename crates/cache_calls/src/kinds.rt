//! What cache handles stand for.
ghost use Rattle.std.specs.Prelude.{◌≡◌};
ghost use Rattle.cache_calls.specs.Kinds.{is_plain, is_streamed};

/// What made a cache handle.
#[derive(Clone, Copy, Debug, PartialEq, Eq)]
pub enum CacheKind {
    Lookup,
    /// A lookup that may be told to insert or to renew.
    Transaction,
    /// An insertion whose object is read while it is written.
    Streamed,
}

impl CacheKind {
    /// A plain lookup, which is no transaction.
    pub fn is_plain(self) -> bool
        ensures { result ≡ is_plain self }
    {
        match self {
            CacheKind::Lookup => true,
            _ => false,
        }
    }

    /// A handle on an object that its guest writes.
    pub fn is_streamed(self) -> bool
        ensures { result ≡ is_streamed self }
    {
        match self {
            CacheKind::Streamed => true,
            _ => false,
        }
    }
}
