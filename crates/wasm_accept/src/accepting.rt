//! Bytes that are read, and then validated.

ghost use Rattle.std.specs.Prelude.{IfOk, IfErr, List, ℕ};
ghost use Rattle.wasm_types.specs.declared.modules.Module.{Module};
ghost use Rattle.wasm_reader.specs.Grammar.{IsModule};
ghost use Rattle.wasm_validate.specs.Valid.{IsValid};
ghost use Rattle.wasm_accept.specs.Accepting.{OnlyMemory, IsCause};

use std::alloc::Global;
use wasm_code::ReadFault;
use wasm_reader::read_module;
use wasm_validate::{Valid, ValidFault, validate};

/// Why bytes are no valid module.
#[derive(Clone, Copy, Debug, PartialEq, Eq)]
pub enum Refusal {
    Read(ReadFault),
    Valid(ValidFault),
}

/// The valid module that the bytes spell.
pub fn accept(alloc: Global, bytes: &[u8]) -> Result<Valid, Refusal>
    // What is answered is spelled by the bytes, and valid.
    ensures found { IfOk result (λ m. IsModule bytes.now m) }
    ensures valid { IfOk result (λ m. IsValid m) }

    // What is spelled by the bytes and valid is answered, unless memory runs out.
    ensures only { (m : Module) → IsModule bytes.now m → IsValid m → OnlyMemory result }

    // Which fault it is.
    ensures cause { IfErr result (IsCause bytes.now) }
{
    match read_module(alloc, bytes) {
        Err(fault) => Err(Refusal::Read(fault)),
        Ok(whole) => match validate(alloc, whole) {
            Err(fault) => Err(Refusal::Valid(fault)),
            Ok(valid) => Ok(valid),
        },
    }
}
