//! One guest of a cache, and its calls.

ghost use Rattle.std.specs.Prelude.{◌≡◌, [], IfOk, OnOk};
ghost use Rattle.core_tests.specs.Asked.{HasGuest, MayMake};

use cache_types::{CacheCall, OneCache, StepFault, Stepped};

/// A guest begins, the first of its cache.
pub fn begin<S: OneCache>(cache: &mut S) -> Result<u64, StepFault>
    requires { S.history cache.old ≡ [] }
    ensures { IfOk result (λ guest. HasGuest (S.history cache.new) guest) }
{
    let told = cache.step(0, 0, &CacheCall::Begin)?;
    Ok(told.number)
}

/// One call of the guest, with the reading 0.
pub fn ask<S: OneCache>(cache: &mut S, guest: u64, call: &CacheCall) -> Result<Stepped, StepFault>
    requires guest { HasGuest (S.history cache.old) guest }
    requires call { MayMake call.now }
    ensures { HasGuest (S.history cache.new) guest }
{
    cache.step(guest, 0, call)
}

/// The guest ends.
pub fn end<S: OneCache>(cache: &mut S, guest: u64) -> Result<Stepped, StepFault>
    requires { HasGuest (S.history cache.old) guest }
{
    cache.step(guest, 0, &CacheCall::End)
}
