//! Random words by their places.

ghost use Rattle.std.specs.Prelude.{◌≡◌};
ghost use Rattle.edge_load.specs.Words.{seed, word};

use rand_chacha::ChaCha8Rng;
use rand_core::SeedableRng;
use rand_core::utils::NextWord;

/// The seed of a number.
fn seed(number: u64) -> [u8; 32]
    ensures { result ≡ seed number }
{
    let mut seed = [0u8; 32];
    seed[..8].copy_from_slice(&number.to_le_bytes());
    seed
}

/// The word at a place of the number's stream.
#[tactic(auto, using(crate::proofs::Places::place_same), unfolding(crate::specs::Words::word))]
pub fn word(number: u64, place: u64) -> u32
    ensures { result ≡ word number place }
{
    let mut words = ChaCha8Rng::from_seed(seed(number));
    words.set_word_pos(u128::from(place));
    words.next_word()
}
