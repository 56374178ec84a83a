//! The steps of the machine on flat code, with a stack of operands for all calls, a stack of marks for the open blocks, and a
//! stack of the calls that wait.
//!
//! The code is executed as it was read and validated. A [`Thread`] stands at a place in it; `specs/Flat.antt` says where each
//! instruction leads, and each function here does what is written there, unless memory runs out. No contract above speaks of
//! these steps: what they are to the meaning of code is told by the layer above.
//!
//! Every function takes any state. What is missing or of another kind is answered by `Stuck`, which valid code never is.
#![tactic(auto)]

mod access;
mod calls;
mod calls_out;
mod cells;
mod desk;
mod flow;
mod halt;
mod locals;
mod start;
mod step;
mod thread;

pub use cells::Cells;
pub use desk::Desk;
pub use halt::{Halt, Next};
pub use step::Item;
pub use thread::{Callee, Frame, Mark, Thread};
