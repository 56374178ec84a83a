//! Laws of the rows that send: each ticket is answered once.
//!
//! A row names only tickets that its guest holds, whatever it is answered, and a ticket is held from the reply that gave it to
//! the response or the failure that takes it. It leaves handles that keep no other tickets, and no two of them keep one.
#![tactic(auto)]

mod laws;

pub use laws::{rows_name_what_is_held, steps_name_what_is_held};
