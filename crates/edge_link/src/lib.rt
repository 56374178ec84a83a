//! Messages to and from backends: the bytes of a request, and the response that bytes hold.
//!
//! To the layer above: `request_bytes` gives the stated text, of which a reader of requests gets method, target, headers
//! and body back. `read_response` gives the one response to a method that the bytes hold, and says that there is none just
//! where there is none.
#![tactic(auto)]

mod bodies;
mod fault;
mod heads;
mod laws;
mod requests;
mod responses;
mod targets;

pub use bodies::Told;
pub use fault::ResponseFault;
pub use heads::Head;
pub use laws::{one_response_at_most, there_is_a_reading};
pub use requests::request_bytes;
pub use responses::read_response;
