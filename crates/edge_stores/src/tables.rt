//! What a guest has of stores, endpoints and random words.
ghost use Rattle.std.specs.Prelude.{◌≡◌, []};
ghost use Rattle.rand_chacha.specs.ChaCha.{key_of};

use cache_types::Octets;
use edge_abi::Table;
use rand_chacha::ChaCha20Rng;
use rand_core::SeedableRng;
use std::alloc::Global;

/// The tables of one guest: the names of stores and endpoints that were opened, and the values of secrets that were got.
#[derive(Drop)]
pub struct StoreTables {
    pub dictionaries: Table<Octets>,
    pub configs: Table<Octets>,
    pub stores: Table<Octets>,
    pub secrets: Table<Octets>,
    pub endpoints: Table<Octets>,
    pub random: ChaCha20Rng,
}

impl StoreTables {
    /// What a guest has at its start. Its random words are those of the stream with this number, from its first word on.
    pub fn new(alloc: Global, random: [u8; 32], index: u64) -> StoreTables
        ensures { result ≡ record { dictionaries = []; configs = []; stores = []; secrets = []; endpoints = []; random = record { key = key_of random; stream = index; word_pos = 0 } } }
    {
        let mut words = ChaCha20Rng::from_seed(random);
        words.set_stream(index);
        StoreTables {
            dictionaries: Table::new(alloc),
            configs: Table::new(alloc),
            stores: Table::new(alloc),
            secrets: Table::new(alloc),
            endpoints: Table::new(alloc),
            random: words,
        }
    }
}
