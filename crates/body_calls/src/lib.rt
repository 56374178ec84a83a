//! The rows on bodies in the cases that make outer calls: hits that are read, a body that fills an object of the cache, the
//! streamed answer.
//!
//! A row goes on with the reply to its call, and each step of it is what the row says, whatever the replies. The parts of a
//! body are written on in pieces; joined, these are the parts' bytes.
#![tactic(auto)]

mod calls;
mod fronts;
mod laws;
mod moving;
mod parts;
mod pieces;
mod reading;
mod replies;
mod sending;
mod under_way;

pub use calls::{http_body_abandon, http_body_append, http_body_close, http_body_write, resumed};
pub use laws::{pieces_are_the_parts, refused_body_rows_change_nothing};
pub use parts::parts_of;
pub use reading::http_body_read;
pub use under_way::{BodyStep, Then, UnderWay};
