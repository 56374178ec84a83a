//! What all hostcalls share: statuses, tables of handles, the memory of a guest, and what a row of the table of calls is.
//!
//! A row is a function of the replies to its outer calls. Its refusals stand first, in one order, and change nothing; what
//! is read and written is stated byte by byte, and every other byte stays.
#![tactic(auto)]

mod asked;
mod laws;
mod lists;
mod memory;
mod octets;
mod refusals;
mod status;
mod table;
mod values;

pub use asked::{Asked, Step};
pub use laws::a_write_changes_its_range_alone;
pub use lists::{put_list, write_list};
pub use memory::{put, put_number};
pub use octets::{AbiFault, read_octets, write_number, write_octets};
pub use refusals::{placed, ranged, unless};
pub use status::{Refusal, Status};
pub use table::{AddFault, Table};
pub use values::put_value;
