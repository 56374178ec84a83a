//! What is tested of one guest's work. It stands apart, so that the work is proved once.
#![tactic(auto)]

#[cfg(test)]
mod guests;
