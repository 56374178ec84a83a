//! What is tested of play files: one with what it says, and the first bad line of broken ones. It stands apart, so that
//! their reader is proved once.
#![tactic(auto)]

#[cfg(test)]
mod reading;
