//! What stands in a run file, a play file or a module, told from the raw bytes in plain words: the hints of the program
//! `edge_why`.
//!
//! Nothing here decides what is right. A run file is read by `run_files`, a play file by `play_files`, a module by
//! `edge_modules`; where one of them refused, the bytes are looked at again, for what a person would want to know. So a
//! hint may be wrong, and a verdict can't be.
#![tactic(auto)]

mod bodies;
mod calls;
mod opcodes;
mod options;
mod places;
mod play_spot;
mod plays;
mod requests;
mod runs;
mod spelling;
mod spot;
mod text;

pub use bodies::instruction_at;
pub use opcodes::{float_name, later_form, later_opcode};
pub use places::{Section, function_of, has_custom, leb_at, section_name, section_of};
pub use plays::play_hint;
pub use runs::{is_settings, run_hint};
pub use spot::{Part, Spot, spot_at};
pub use text::{is_text, nearest, quote, show_hex, show_number, show_value};
