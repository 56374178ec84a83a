//! Random bytes.
ghost use Rattle.std.specs.Prelude.{◌≡◌, IfOk, OnOk};
ghost use Rattle.edge_abi.specs.declared.asked.Step.TheVariants.{Done};
ghost use Rattle.edge_abi.specs.Goes.{Goes};
ghost use Rattle.edge_stores.specs.UnderWays.{resumed};
ghost use Rattle.edge_stores.specs.Wasi as rows;

use crate::numbers::{SUCCESS, errno_of};
use crate::tables::StoreTables;
use edge_abi::{Refusal, Status, put, ranged, unless};
use fastly_toml::Settings;
use rand_chacha::ChaCha20Rng;
use rand_core::utils::fill_bytes_via_u32;
use std::alloc::{AllocError, Global};
use wasm_memory::Memory;

/// The most bytes of one call.
const MOST_BYTES: u32 = 65_536;

fn random_asked(memory: &Memory, p: u32, n: u32) -> Result<(), Refusal>
    ensures { result ≡ rows.random_asked memory.now p n }
{
    ranged(memory, p, n)?;
    unless(n <= MOST_BYTES, Status::Inval)
}

/// The next bytes of a guest's stream.
fn next_bytes(alloc: Global, random: &mut ChaCha20Rng, n: u32) -> Result<Vec<u8>, AllocError>
    ensures bytes { IfOk result (λ bytes. bytes.items ≡ (rows.random_bytes n random.old).0) }
    ensures left { OnOk result (random.new ≡ (rows.random_bytes n random.old).1) }
{
    let mut bytes = vec![in alloc; 0u8; n as usize]?;
    fill_bytes_via_u32(random, bytes.as_mut_slice());
    Ok(bytes)
}

/// Writes the next random bytes.
pub fn wasi_random_get(
    alloc: Global,
    tables: &mut StoreTables,
    _settings: &Settings,
    memory: &mut Memory,
    p: u32,
    n: u32,
) -> Result<u32, AllocError>
    ensures { IfOk result (λ number. Goes resumed (rows.wasi_random_get tables.old memory.old p n) (Done number) tables.new memory.new) }
{
    match random_asked(memory, p, n) {
        Ok(()) => {
            let bytes = next_bytes(alloc, &mut tables.random, n)?;
            put(memory, p, bytes.as_slice());
            Ok(SUCCESS)
        }
        Err(Refusal::Told(status)) => Ok(errno_of(status)),
        Err(Refusal::OutOfMemory) => Err(AllocError),
    }
}
