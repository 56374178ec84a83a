//! The calls that send requests to backends, and those that ask for the responses.
//!
//! A pending handle names a ticket of the link, or the response or failure that a call found and kept. The call that tells a
//! response or a failure takes its handle, so each ticket is answered once; a handle that keeps what came asks the link
//! nothing. Each row is a function of the replies to its outer calls, and each step of the code is what that function says.
#![tactic(auto)]

mod asks;
mod backends;
mod choices;
mod gathering;
mod handles;
mod received;
mod replies;
mod sending;
mod sends;
mod tables;
mod under_way;
mod waits;

pub use asks::{async_is_ready, http_req_pending_req_poll, http_req_pending_req_wait};
pub use choices::{async_select, http_req_pending_req_select};
pub use replies::pending_reply;
pub use sending::{Sending, Then};
pub use sends::{http_req_send, http_req_send_async};
pub use tables::{Pending, PendingState, PendingTables};
pub use under_way::{Lead, PendingStep, Places, UnderWay};
