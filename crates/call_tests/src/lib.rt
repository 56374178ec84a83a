//! What no clause of the hostcalls says: that they are answered where memory is ample. Worked rows, and tables of handles,
//! places, texts, numbers and records that calls refuse. It stands apart, so that the crates below are proved once.
//!
//! A test is a list of steps of a guest that has tables and a memory and no program.
#![tactic(auto)]

#[cfg(test)]
mod bad;
#[cfg(test)]
mod cache;
#[cfg(test)]
mod guest;
#[cfg(test)]
mod kinds;
#[cfg(test)]
mod messages;
#[cfg(test)]
mod options;
#[cfg(test)]
mod parameters;
#[cfg(test)]
mod said;
#[cfg(test)]
mod steps;
#[cfg(test)]
mod stores;
#[cfg(test)]
mod texts;
