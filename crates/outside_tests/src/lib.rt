//! What is tested of the outside: the fakes in memory. It stands apart, so that the crate below is proved once.
#![tactic(auto)]

#[cfg(test)]
mod clocks;
#[cfg(test)]
mod fakes;
#[cfg(test)]
mod links;
