//! A place where a test may hold guests. No contract speaks of it.

/// Stands before each outer call of a guest. It promises nothing.
pub trait Gate {
    /// Before an outer call: the index of the guest's request, and the call's place in the guest's trace, from 1.
    fn before(&self, index: u64, call: u64);

    /// Between two tries of one call.
    fn idle(&self);
}

/// A gate that holds nobody.
#[derive(Clone, Copy, Debug, PartialEq, Eq)]
pub struct FreeGate;

impl Gate for FreeGate {
    fn before(&self, _index: u64, _call: u64) {}

    fn idle(&self) {}
}
