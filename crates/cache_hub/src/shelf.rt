//! A cache as the value that a turnstile keeps.
ghost use Rattle.std.specs.Prelude.{◌≡◌, ◌<◌, ◌^◌, IfOk};
ghost use Rattle.cache_hub.specs.Calls.{is_entry_of};

use cache_types::{CacheCall, Entry, OneCache, Reply, StepFault, Stepped};
use std::marker::Model;
use turnstile::{Kept, Pass, Standing};

/// A cache on a turnstile.
#[derive(Drop)]
pub struct Shelf<S> {
    pub(crate) cache: S,
}

impl<S> Model for Shelf<S> {
    ghost Value = { S };

    ghost view = { λ s. s.cache };
}

impl<S: OneCache> Standing for Shelf<S> {
    type Entry = Entry;

    ghost use Rattle.std.specs.Prelude.{ℕ};
    ghost use Rattle.cache_hub.specs.Calls.{IsSound};

    ghost Setting = { ℕ };

    ghost setting = { S.most };

    ghost entries = { S.history };

    ghost first = { λ _. 1 };

    ghost sound = { λ s. IsSound (S.history s) };

    ghost family = { λ e. e.guest };
}

/// One call of a guest at a reading of its clock. Guest 0 begins.
#[derive(Clone, Copy)]
pub struct Ask<'a> {
    pub guest: u64,
    pub reading: u64,
    pub call: &'a CacheCall,
}

/// Whether the step added an entry: every reply but NotYet is one.
fn is_entry(answer: &Result<Stepped, StepFault>) -> bool
    ensures added { result ≡ is_entry_of answer.now }
    ensures fits { IfOk answer.now (λ told. told.number < 2 ^ 64) }
{
    match answer {
        Ok(told) => {
            let _number = told.number;
            !matches!(told.reply, Reply::NotYet)
        }
        Err(_) => false,
    }
}

impl<'a, S: OneCache> Kept<Ask<'a>> for Shelf<S> {
    type Answer = Result<Stepped, StepFault>;

    ghost use Rattle.cache_types.specs.Step.{MayCall};
    ghost use Rattle.cache_hub.specs.Calls.{joins, GivesLegal};

    ghost joins = { λ ask. joins ask.guest ask.call.now };

    ghost asks = { λ ask own. MayCall own ask.guest ask.call.now };

    ghost gives = { λ s ask answer gained. GivesLegal (S.most s) (S.history s) ask.guest ask.reading ask.call.now answer gained };

    fn serve(&mut self, ask: &Ask<'a>) -> (Result<Stepped, StepFault>, bool) {
        let answer = self.cache.step(ask.guest, ask.reading, ask.call);
        let added = is_entry(&answer);
        (answer, added)
    }
}

/// What one caller has seen of the cache's history, and made.
pub type HubPass<S> = Pass<Shelf<S>>;
