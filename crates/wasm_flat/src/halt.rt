//! What a step leads to, and why there is none.

ghost use Rattle.std.specs.Prelude.{◌≡◌};
ghost use Rattle.wasm_flat.specs.declared.halt.Halt.TheVariants.{Memory};

use std::alloc::{AllocError, AllocFailed};
use wasm_types::TrapKind;

/// Why code doesn't go on: it traps, memory ran out, or it finds no operand, block or index of its kind, which valid code
/// always does.
#[derive(Clone, Copy)]
pub enum Halt {
    Stuck,
    Memory,
    Trap(TrapKind),
}

impl From<AllocError> for Halt {
    ghost from_gives = { λ _ e. e ≡ Memory };

    fn from(_error: AllocError) -> Halt {
        Halt::Memory
    }
}

impl<T: Drop> From<AllocFailed<T>> for Halt {
    ghost from_gives = { λ _ e. e ≡ Memory };

    fn from(_error: AllocFailed<T>) -> Halt {
        Halt::Memory
    }
}

/// What a step leads to: to the next one, to an import that is called, to the end of the outermost call, or to an instruction
/// that finds no fuel.
#[derive(Clone, Copy)]
pub enum Next {
    On,
    Import(u32),
    Over,
    Dry,
}
