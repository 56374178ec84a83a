//! What is tested of loads: the line of one, and that the plain and the indexed cache give one history of its beginning.
#![tactic(auto)]

#[cfg(test)]
mod loads;
