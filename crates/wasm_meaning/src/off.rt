use wasm_types::TrapKind;

/// Why an instruction has no next state: it traps, or finds no operand, label or index of its kind, which valid code always
/// does.
#[derive(Clone, Copy, Debug, PartialEq, Eq)]
pub enum Off {
    Stuck,
    Trap(TrapKind),
}
