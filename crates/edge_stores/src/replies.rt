//! What the reply to a row's outer call becomes.
ghost use Rattle.edge_abi.specs.declared.asked.Step.TheVariants.{Done};
ghost use Rattle.edge_abi.specs.Goes.{Goes};
ghost use Rattle.edge_stores.specs.UnderWays as spec;

use crate::numbers::{SUCCESS, errno_of};
use crate::tables::StoreTables;
use crate::under_way::UnderWay;
use cache_types::OuterReply;
use edge_abi::{Status, put_number};
use wasm_memory::Memory;

/// Goes on with a row that waited for this reply: the number that it answers.
pub fn store_reply(
    tables: &mut StoreTables,
    memory: &mut Memory,
    under: UnderWay,
    reply: &OuterReply,
) -> u32
    ensures { Goes spec.resumed (spec.resumed under tables.old memory.old reply.now) (Done result) tables.new memory.new }
{
    match under {
        UnderWay::Logging { taken, place } => match reply {
            OuterReply::Sent => {
                put_number(memory, place, 4, u64::from(taken));
                Status::Ok.number()
            }
            _ => Status::Error.number(),
        },
        UnderWay::Writing { taken, place } => match reply {
            OuterReply::Sent => {
                put_number(memory, place, 4, u64::from(taken));
                SUCCESS
            }
            _ => errno_of(Status::Error),
        },
        UnderWay::Timing { place } => match reply {
            OuterReply::Now(reading) => {
                put_number(memory, place, 8, *reading);
                SUCCESS
            }
            _ => errno_of(Status::Error),
        },
    }
}
