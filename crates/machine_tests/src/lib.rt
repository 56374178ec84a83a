//! What is tested of the machine, by code and modules in bytes. It stands apart, so that the crates below are proved once.
#![tactic(auto)]

#[cfg(test)]
mod rows;
#[cfg(test)]
mod starting;
