//! What calls of WASI answer.
ghost use Rattle.std.specs.Prelude.{◌≡◌};
ghost use Rattle.edge_stores.specs.Numbers as spec;

use edge_abi::Status;

/// It went well.
pub const SUCCESS: u32 = 0;

/// The number of a status in WASI: success 0, badf 8, and else inval 28.
pub fn errno_of(status: Status) -> u32
    ensures { result ≡ spec.errno_of status }
{
    match status {
        Status::Ok => SUCCESS,
        Status::Badf => 8,
        _ => 28,
    }
}
