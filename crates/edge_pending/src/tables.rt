//! What a guest has of requests that it sent.
ghost use Rattle.std.specs.Prelude.{◌≡◌, ◌+◌, ◌∷◌, ◌++◌, [], length, Some, OnOk};
ghost use Rattle.edge_abi.specs.Memory.{number_put};

use cache_types::Octets;
use edge_abi::{Table, put_number};
use std::alloc::{AllocError, Global};
use wasm_memory::Memory;

/// Where the response to a request is: the link has it under a ticket, or it came and is kept, or the link failed.
#[derive(Drop)]
pub enum PendingState {
    Ticket(u64),
    Came(Octets),
    Broken,
}

/// A request that was sent: its method, by which the response is read, and where the response is.
#[derive(Drop)]
pub struct Pending {
    pub method: Octets,
    pub state: PendingState,
}

/// The pending handles of one guest.
#[derive(Drop)]
pub struct PendingTables {
    pub pending: Table<Pending>,
}

impl PendingTables {
    /// What a guest has at its start.
    pub fn new(alloc: Global) -> PendingTables
        ensures { result ≡ record { pending = [] } }
    {
        PendingTables {
            pending: Table::new(alloc),
        }
    }
}

/// One handle more, whose number is told at a place.
pub fn add<T: Drop>(
    table: &mut Table<T>,
    memory: &mut Memory,
    value: T,
    place: u32,
) -> Result<(), AllocError>
    ensures added { OnOk result (table.new ≡ table.old ++ Some value ∷ []) }
    ensures told { OnOk result (memory.new ≡ number_put memory.old place 4 (length table.old + 1)) }
{
    match table.add(value) {
        Ok(number) => {
            put_number(memory, place, 4, u64::from(number));
            Ok(())
        }
        Err(_) => Err(AllocError),
    }
}
