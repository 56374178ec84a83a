//! What the first fault means, apart from how reading finds it: nothing is wrong before its place, and nothing
//! that follows mends it. Each law is the contract of a function that does nothing; the readers have contracts
//! by the same definitions.

ghost use Rattle.wasm_code.specs.Reading.{u32_at, s32_at, s64_at};
ghost use Rattle.wasm_code.specs.Instructions.{expression_at};
ghost use Rattle.wasm_code.specs.FirstFault.{TellsFirst};

/// The fault of a number is the first one.
pub fn numbers_tell_first()
    ensures u32 { TellsFirst u32_at }
    ensures s32 { TellsFirst s32_at }
    ensures s64 { TellsFirst s64_at }
{}

/// The fault of an expression is the first one.
pub fn expressions_tell_first()
    ensures { TellsFirst expression_at }
{}
