//! The calls that a guest may import, and the linking of a module to them.
#![tactic(auto)]

mod find;
mod hostcall;
mod laws;
mod linked;
mod linking;
mod links;
mod table;
mod text;
mod types;

pub use find::{HOSTCALLS, call_named};
pub use hostcall::Hostcall;
pub use laws::each_call_is_named;
pub use linked::{Linked, link};
pub use linking::links_of;
pub use links::{LinkRefusal, Links};
pub use table::Row;
