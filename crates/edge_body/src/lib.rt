//! Messages as guests see them: the heads of requests and responses, which keep their rules, and bodies as lists of parts.
//!
//! A head that exists keeps its rules, so whatever writes it or looks into it may rely on them: at most 100 headers, names
//! that are tokens in lower case, values without NUL, CR and LF. A body is a list of parts, each bytes of its own or the
//! rest of what a lookup found.
#![tactic(auto)]

mod body;
mod heads;
mod rules;

pub use body::{Body, Part};
pub use heads::{RequestHead, ResponseHead};
pub use rules::{are_fields, is_field_name, is_field_value, is_status, is_uri};
