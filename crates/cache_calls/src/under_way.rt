//! Rows that wait for the reply to their call on the cache.

ghost use Rattle.std.specs.Prelude.{◌≡◌};
ghost use Rattle.cache_types.specs.declared.outer.OuterCall.TheVariants as call;
ghost use Rattle.edge_abi.specs.declared.asked.Step.TheVariants.{Outer};

use crate::kinds::CacheKind;
use cache_types::{CacheCall, OuterCall, Terms};
use edge_abi::Step;

/// A row that waits, and where it tells the handles that it will give.
#[derive(Drop)]
pub enum UnderWay {
    /// A lookup.
    Looking {
        kind: CacheKind,
        place: u32,
    },
    /// The lookup that a busy handle stands for.
    Waiting {
        busy: u32,
        place: u32,
    },
    /// An insertion.
    Inserting {
        place: u32,
    },
    /// An insertion whose object is read back: the places of the body's handle and of the cache handle.
    StreamingBack {
        place: u32,
        back: u32,
        terms: Terms,
        length: Option<u64>,
    },
    /// A call that gives no handle.
    Telling,
    /// The lookup of a handle is closed.
    Closing {
        handle: u32,
    },
}

/// A call on the cache, and how its row goes on with the reply.
#[derive(Drop)]
pub struct Asking {
    pub call: CacheCall,
    pub under: UnderWay,
}

/// What a row on the cache has come to.
pub type CacheStep = Step<UnderWay>;

impl Asking {
    /// The step of its row.
    pub fn step(self) -> CacheStep
        ensures { result ≡ Outer (call.Cache self.call) self.under }
    {
        let Asking { call, under } = self;
        Step::Outer(OuterCall::Cache(call), under)
    }
}
