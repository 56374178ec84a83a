//! What no clause of heads and bodies says: that they are made where memory is ample. It stands apart, so that `edge_body` is
//! proved once.
#![tactic(auto)]

#[cfg(test)]
mod made;
