//! One object changes: the parts are told.

ghost use Rattle.std.specs.Prelude.{◌≡◌, ◌∷◌, List, false, OnOk, OnErr};
ghost use Rattle.cache_types.specs.declared.entries.Entry.{Entry};
ghost use Rattle.cache_types.specs.Entries.{is_begin, is_end};
ghost use Rattle.cache_types.specs.Legal.{IsLegalPast};
ghost use Rattle.cache_types.specs.Objects.{Renewal};
ghost use Rattle.cache_core.specs.Knows.{Knows};
ghost use Rattle.cache_core.specs.News.{Finished, GivenUp, Piece, Renewed, news_of};

use crate::parts::Parts;
use cache_objects::{abandon, extend, finish, renew};
use cache_purge::add_all;
use cache_types::{Copied, Octets};
use std::alloc::{AllocError, Global};

/// The object is whole.
pub fn tell_finished(parts: &mut Parts, object: u64)
    ensures { (past : List Entry) (e : Entry) → IsLegalPast (e ∷ past) → is_begin e.call ≡ false → is_end e.call ≡ false → news_of past e ≡ Finished object → Knows parts.old past → Knows parts.new (e ∷ past) }
{
    finish(&mut parts.objects, object);
}

/// The object never becomes whole.
pub fn tell_given_up(parts: &mut Parts, object: u64)
    ensures { (past : List Entry) (e : Entry) → IsLegalPast (e ∷ past) → is_begin e.call ≡ false → is_end e.call ≡ false → news_of past e ≡ GivenUp object → Knows parts.old past → Knows parts.new (e ∷ past) }
{
    abandon(&mut parts.objects, object);
}

/// The entry of this number renews the object, with terms that have these surrogate keys.
pub fn tell_renewed(
    parts: &mut Parts,
    alloc: Global,
    object: u64,
    surrogates: &[Octets],
    number: u64,
) -> Result<(), AllocError>
    ensures told { OnOk result ((past : List Entry) (e : Entry) (renewal : Renewal) → IsLegalPast (e ∷ past) → is_begin e.call ≡ false → is_end e.call ≡ false → news_of past e ≡ Renewed renewal → renewal.object ≡ object → e.number ≡ number → renewal.terms.surrogates ≡ surrogates.now → Knows parts.old past → Knows parts.new (e ∷ past)) }
    ensures kept { OnErr result ((past : List Entry) → Knows parts.old past → Knows parts.new past) }
{
    add_all(&mut parts.bearers, alloc, surrogates, object)?;
    renew(&mut parts.objects, object, number);
    Ok(())
}

/// More bytes of the object.
pub fn tell_piece(
    parts: &mut Parts,
    alloc: Global,
    object: u64,
    piece: &Octets,
) -> Result<(), AllocError>
    ensures told { OnOk result ((past : List Entry) (e : Entry) → IsLegalPast (e ∷ past) → is_begin e.call ≡ false → is_end e.call ≡ false → news_of past e ≡ Piece object piece.now → Knows parts.old past → Knows parts.new (e ∷ past)) }
    ensures kept { OnErr result ((past : List Entry) → Knows parts.old past → Knows parts.new past) }
{
    extend(&mut parts.objects, object, piece.copy(alloc)?)
}
