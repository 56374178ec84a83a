//! What is tested of messages to and from backends: responses at the edge of each rule, whole and in every cut, and
//! requests in their bytes. It stands apart, so that the crate below is proved once.
#![tactic(auto)]

#[cfg(test)]
mod reading;
#[cfg(test)]
mod rows;
#[cfg(test)]
mod writing;
