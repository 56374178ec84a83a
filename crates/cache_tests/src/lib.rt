//! What is tested of the cache's definitions, of rules and of an indexed cache's parts: worked histories that the prover
//! computes, what follows of any cache from its clauses alone, texts of rules, an index and a body. It stands apart, so
//! that the crates below are proved once.
#![tactic(auto)]

#[cfg(test)]
mod parts;
#[cfg(test)]
mod relying;
#[cfg(test)]
mod rows;
#[cfg(test)]
mod vary;
