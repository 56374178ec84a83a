//! The row that answers the client: `send_downstream` of `fastly_http_resp`.
//!
//! Its head is the stated text for the request that came; its parts are written on by `body_calls`, whose reply function goes
//! on with it.
#![tactic(auto)]

mod laws;
mod sends;

pub use laws::{answers_are_the_parts, failed_answers_keep_tables};
pub use sends::http_resp_send_downstream;
