//! Which of a request's headers a stored object is chosen by (RFC 9111, section 4.1): the rule that a text names, and the
//! values that the headers have for it.
#![tactic(auto)]

mod fault;
mod names;
mod rule;
mod variant;

pub use fault::RuleFault;
pub use rule::read_rule;
pub use variant::variant_of;
