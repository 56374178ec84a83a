//! What is tested of validation and linking, by modules that another tool wrote. It stands apart, so that the crates below
//! are proved once.
#![tactic(auto)]

#[cfg(test)]
mod imports;
#[cfg(test)]
mod modules;
