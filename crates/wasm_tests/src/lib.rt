//! What is tested of reading and writing modules, by bytes from outside. It stands apart, so that the crates below are
//! proved once.
#![tactic(auto)]

#[cfg(test)]
mod code;
#[cfg(test)]
mod reader;
#[cfg(test)]
mod told;
#[cfg(test)]
mod types;
#[cfg(test)]
mod writer;
