//! What is tested of the top calls, over files and a sink in memory. It stands apart, so that `edge_top` is proved once.
#![tactic(auto)]

#[cfg(test)]
mod commands;
#[cfg(test)]
mod journals;
#[cfg(test)]
mod loads;
#[cfg(test)]
mod modules;
#[cfg(test)]
mod plays;
