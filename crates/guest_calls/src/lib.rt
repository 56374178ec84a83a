//! The calls of guests, each by the row of the table of calls that it is: how it is started, and how it goes on behind the
//! reply to its outer call.
//!
//! `Call` has the calls whose code stands, and `standing` tells which of the calls that a module may import these are. Each is
//! a row of one of the crates below; nothing is answered here but by them. What a row may ask is never a link.
//!
//! A further crate of rows is one case of `RowCall` with its arm in `row`, and, where its rows make outer calls, one case of
//! `Under` with its arm in `goes_on`.
#![tactic(auto)]

mod cache;
mod call;
mod heard;
mod http;
mod parts;
mod rows;
mod steps;
mod stores;
mod tables;
mod words;

pub use call::{
    AskingCall, BodyCall, Call, HandleCall, HeaderCall, HttpCall, OutsideCall, PartsCall,
    RequestCall, ResponseCall, RowCall, StoreCall, WasiCall, standing,
};
pub use rows::{GuestStep, Under, goes_on, row};
pub use tables::{GuestTables, SharedSettings};
pub use words::word;
