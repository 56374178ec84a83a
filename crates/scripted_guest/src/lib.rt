//! Guests that make the calls of their lines, as players.
//!
//! A scripted guest makes Begin, its lines in order and End. Its promise is that of every `Player`, for the program that
//! `script_program` of `specs/Script.antt` says.
#![tactic(auto)]

mod script;
mod scripted;
mod turns;

pub use scripted::Scripted;
