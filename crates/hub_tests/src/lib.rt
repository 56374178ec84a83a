//! What is tested of the hub, from one thread and from several. It stands apart, so that the hub is proved once.
#![tactic(auto)]

#[cfg(test)]
mod asked;
#[cfg(test)]
mod rows;
#[cfg(test)]
mod threads;
