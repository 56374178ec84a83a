//! What is tested of the indexed cache beside its proof: a run of 800,000 calls, which no body that walks its entries ends
//! in a test's time, and that reads inside one piece share its memory.
#![tactic(auto)]

mod asked;
#[cfg(test)]
mod calls;
#[cfg(test)]
mod sharing;
#[cfg(test)]
mod size;
