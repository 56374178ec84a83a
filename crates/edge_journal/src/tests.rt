//! The tests of all crates of texts. They stand in this one, which is small, since a crate with tests is proved twice.

mod journals;
mod runs;
