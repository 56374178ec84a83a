//! Calls that wait for the turn, and for a reply.
ghost use Rattle.std.specs.Prelude.{◌≡◌, ℕ, IsOk, IfOk};
ghost use Rattle.cache_types.specs.declared.calls.CacheCall.TheVariants.{End};
ghost use Rattle.turnstile.specs.Pass.{IsOf, IsSamePass};
ghost use Rattle.cache_hub.specs.Calls.{MayAsk, HasWhole, HasShare, KeepsGuests, MakesGuest};
ghost use Rattle.cache_hub.specs.Until.{settled_of, CalledUntil, HasEnded};

use crate::faults::{CallFault, UntilFault};
use crate::hub::Hub;
use crate::shelf::{Ask, HubPass};
use cache_types::{CacheCall, OneCache, Reply, StepFault, Stepped};
use edge_outside::{Clock, Gate};
use std::sync::Wait;

/// The answer of a try that isn't made again.
fn settled(answer: Result<Stepped, CallFault>) -> Option<Result<Stepped, UntilFault>>
    ensures { result ≡ settled_of answer }
{
    match answer {
        Ok(told) => {
            if matches!(told.reply, Reply::NotYet) {
                None
            } else {
                Some(Ok(told))
            }
        }
        Err(CallFault::Busy) => None,
        Err(CallFault::Full) => Some(Err(UntilFault::Full)),
        Err(CallFault::OutOfMemory) => Some(Err(UntilFault::OutOfMemory)),
    }
}

fn number_told(answer: Result<Stepped, StepFault>) -> u64
    requires { IsOk answer }
    ensures { IfOk answer (λ told. result ≡ told.number) }
{
    match answer {
        Ok(told) => told.number,
        Err(_) => unreachable!(),
    }
}

impl<S: OneCache> Hub<S> {
    /// Tries a guest's call until it is answered, or the clock reaches the deadline. It reads the clock once before each
    /// try, in nanoseconds.
    pub fn call_until<W: Wait, C: Clock, G: Gate>(
        &self,
        rt: &W,
        pass: HubPass<S>,
        guest: u64,
        clock: &mut C,
        deadline: u128,
        gate: &G,
        call: &CacheCall,
    ) -> (HubPass<S>, Result<Stepped, UntilFault>)
        requires own { IsOf self.now pass }
        requires may { MayAsk pass guest call.now }
        ensures call { (last : ℕ) × CalledUntil C.reads C.content (S.most self.now.start) clock.old pass guest deadline call.now last result.1 clock.new result.0 }
        ensures same { IsSamePass pass result.0 }
        ensures whole { HasWhole pass → HasWhole result.0 }
        ensures share { HasShare S.history self.now pass → HasShare S.history self.now result.0 }
        ensures guests { KeepsGuests pass guest call.now result.0 }
        ensures begins { IfOk result.1 (λ told. MakesGuest call.now told result.0) }
    {
        let (pass, answer, _) = self.call_timed(rt, pass, guest, clock, deadline, gate, call);
        (pass, answer)
    }

    /// As `call_until`, and it tells the last reading.
    pub fn call_timed<W: Wait, C: Clock, G: Gate>(
        &self,
        rt: &W,
        pass: HubPass<S>,
        guest: u64,
        clock: &mut C,
        deadline: u128,
        gate: &G,
        call: &CacheCall,
    ) -> (HubPass<S>, Result<Stepped, UntilFault>, u64)
        requires own { IsOf self.now pass }
        requires may { MayAsk pass guest call.now }
        ensures call { CalledUntil C.reads C.content (S.most self.now.start) clock.old pass guest deadline call.now result.2 result.1 clock.new result.0 }
        ensures same { IsSamePass pass result.0 }
        ensures whole { HasWhole pass → HasWhole result.0 }
        ensures share { HasShare S.history self.now pass → HasShare S.history self.now result.0 }
        ensures guests { KeepsGuests pass guest call.now result.0 }
        ensures begins { IfOk result.1 (λ told. MakesGuest call.now told result.0) }
    {
        let mut pass = pass;
        for _ in rt.forever() {
            let reading = clock.now();
            if u128::from(reading) >= deadline {
                return (pass, Err(UntilFault::Timeout { reading }), reading);
            }
            let (next, answer) = self.try_call(pass, guest, reading, call);
            match settled(answer) {
                Some(answer) => return (next, answer, reading),
                None => pass = next,
            }
            gate.idle();
        }
        unreachable!()
    }

    /// Ends a guest. It takes no memory, and is never refused.
    pub fn end_guest<W: Wait>(
        &self,
        rt: &W,
        pass: HubPass<S>,
        guest: u64,
        reading: u64,
    ) -> (HubPass<S>, u64)
        requires own { IsOf self.now pass }
        requires may { MayAsk pass guest End }
        ensures ended { HasEnded (S.most self.now.start) pass guest reading result.1 result.0 }
        ensures same { IsSamePass pass result.0 }
        ensures whole { HasWhole result.0 }
        ensures share { HasShare S.history self.now result.0 }
    {
        let ask = Ask {
            guest,
            reading,
            call: &CacheCall::End,
        };
        let (pass, answer) = self.turnstile.turn(rt, pass, &ask);
        (pass, number_told(answer))
    }
}
