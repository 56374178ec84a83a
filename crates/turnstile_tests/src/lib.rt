//! What is tested of the turnstile, from one thread and from several. It stands apart, so that the turnstile is proved once.
#![tactic(auto)]

#[cfg(test)]
mod numbers;
