//! Keys, and texts of surrogate keys.
ghost use Rattle.std.specs.Prelude.{◌≡◌, ◌+◌, ◌++◌, ◌∷◌, [], filter, length, sum_by, IsTrue, IfOk, IfErr, OnOk};
ghost use Rattle.cache_types.specs.Limits.{is_surrogates};
ghost use Rattle.vary_rules.specs.Rules.{is_some_word};
ghost use Rattle.edge_abi.specs.Memory.{has_range, octets_at};
ghost use Rattle.edge_abi.specs.Refusals.{Judges};
ghost use Rattle.cache_calls.specs.Options.{as_keys, IsOver};

use cache_types::{Items, Octets, OctetsList, is_surrogate_key};
use edge_abi::{Refusal, Status, unless};
use edge_words::cut;
use std::alloc::{AllocError, Global};
use std::marker::Model;
use wasm_memory::Memory;

/// The most bytes of an object's surrogate keys, with one more for each.
const MOST_SPACED: u64 = 16_385;

/// The bytes of a range.
pub fn bytes_at(memory: &Memory, p: u32, n: u32) -> &[u8]
    requires { IsTrue (has_range memory.now p n) }
    ensures { result.now ≡ octets_at memory.now p n }
{
    match memory.part(p, n) {
        Some(bytes) => bytes,
        None => unreachable!(),
    }
}

/// Surrogate keys within their limits, and how many bytes they have with one more for each.
#[derive(Drop)]
struct Keys {
    keys: Vec<Octets>,
    spaced: u64,
}

impl Model for Keys {
    ghost use Rattle.std.specs.Prelude.{◌≡◌, ◌+◌, List, ℕ, IsTrue, length, sum_by};
    ghost use Rattle.cache_types.specs.Limits.{is_surrogates};

    ghost Value = { List (List ℕ) };

    ghost view = { λ k. k.keys.items };

    ghost invariant = { λ k. (k.spaced ≡ sum_by (λ key. length key + 1) k.keys.items) × IsTrue (is_surrogates k.keys.items) };
}

impl Keys {
    fn new(alloc: Global) -> Keys
        ensures { result ≡ [] }
    {
        Keys {
            keys: Vec::new(alloc),
            spaced: 0,
        }
    }

    /// One key more; an empty word is none.
    #[tactic(auto, using(crate::proofs::Surrogates::no_word, crate::proofs::Surrogates::some_word, crate::proofs::Surrogates::add_bad, crate::proofs::Surrogates::add_long, crate::proofs::Surrogates::add_good, crate::proofs::Surrogates::spaced_fits))]
    fn add(&mut self, alloc: Global, word: &[u8]) -> Result<(), Refusal>
        ensures added { OnOk result (self.new ≡ self.old ++ filter is_some_word (word.now ∷ [])) }
        ensures over { IfErr result (λ refusal. IsOver (self.old ++ filter is_some_word (word.now ∷ [])) refusal) }
    {
        if word.is_empty() {
            return Ok(());
        }
        unless(is_surrogate_key(word), Status::Limitexceeded)?;
        let spaced = self.spaced + word.len() as u64 + 1;
        unless(spaced <= MOST_SPACED, Status::Limitexceeded)?;
        self.push(Octets::of(alloc, word)?, spaced)?;
        Ok(())
    }

    fn push(&mut self, key: Octets, spaced: u64) -> Result<(), AllocError>
        requires len { spaced ≡ sum_by (λ key. length key + 1) (self.old ++ key ∷ []) }
        requires kept { IsTrue (is_surrogates (self.old ++ key ∷ [])) }
        ensures { OnOk result (self.new ≡ self.old ++ key ∷ []) }
    {
        self.keys.push(key)?;
        self.spaced = spaced;
        Ok(())
    }

    fn into_list(self) -> OctetsList
        ensures value { result ≡ self }
        ensures kept { IsTrue (is_surrogates result) }
    {
        let Keys { keys, spaced: _ } = self;
        Items::of(keys)
    }
}

/// The surrogate keys of a text, which spaces separate.
pub fn keys_in(alloc: Global, text: &[u8]) -> Result<OctetsList, Refusal>
    ensures asked { Judges (as_keys text.now) result }
    ensures kept { IfOk result (λ keys. IsTrue (is_surrogates keys)) }
{
    let mut keys = Keys::new(alloc);
    let mut rest = text;
    while let Some((word, after)) = cut(rest, b' ') {
        keys.add(alloc, word)?;
        rest = after;
    }
    keys.add(alloc, rest)?;
    Ok(keys.into_list())
}
