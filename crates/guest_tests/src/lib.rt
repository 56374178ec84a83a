//! What is tested of guests, by modules that another tool wrote. It stands apart, so that the crates below are proved once.
#![tactic(auto)]

#[cfg(test)]
mod modules;
#[cfg(test)]
mod playing;
#[cfg(test)]
mod plays;
#[cfg(test)]
mod rows;
#[cfg(test)]
mod scripted;
#[cfg(test)]
mod starting;
