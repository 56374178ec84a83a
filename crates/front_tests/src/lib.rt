//! What is tested of the front: requests at the edge of each rule, and answers in their bytes. It stands apart, so that
//! the crate below is proved once.
#![tactic(auto)]

#[cfg(test)]
mod pieces;
#[cfg(test)]
mod reading;
#[cfg(test)]
mod rows;
#[cfg(test)]
mod writing;
