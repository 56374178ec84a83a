//! Valid modules.

ghost use Rattle.std.specs.Prelude.{◌≡◌, IfOk};
ghost use Rattle.wasm_validate.specs.Faults.{Answers, Passes};
ghost use Rattle.wasm_validate.specs.Valid.{IsValid};
ghost use Rattle.wasm_validate.specs.Ready.{IsReady};
ghost use Rattle.wasm_validate.specs.Parts.{first_fault};

use crate::fault::{ValidFault, told_of};
use crate::module::check_module;
use std::alloc::Global;
use std::marker::Model;
use wasm_types::Module;

/// A valid module within the limits. Contracts see the module.
#[derive(Drop)]
pub struct Valid {
    whole: Module,
}

impl Model for Valid {
    ghost use Rattle.wasm_types.specs.declared.modules.Module.{Module as AModule};
    ghost use Rattle.wasm_validate.specs.Valid.{IsValid};
    ghost use Rattle.wasm_validate.specs.Ready.{IsReady};

    ghost Value = { AModule };

    ghost view = { λ v. v.whole };

    ghost invariant = { λ v. IsReady v.whole × IsValid v.whole };
}

impl Valid {
    /// The module, which is valid.
    pub fn module(&self) -> &Module
        ensures same { result.now ≡ self.now }
        ensures ready { IsReady self.now }
        ensures valid { IsValid self.now }
    {
        &self.whole
    }
}

/// Whether a module is valid, and else its first fault.
pub fn validate(alloc: Global, whole: Module) -> Result<Valid, ValidFault>
    requires { IsReady whole }

    // What is answered is the module, and it is valid.
    ensures found { IfOk result (λ v. v ≡ whole) }
    ensures valid { IfOk result (λ _. IsValid whole) }

    // What is valid is answered, unless memory runs out.
    ensures only { IsValid whole → Passes result }

    // Which fault it is.
    ensures exact { Answers result (first_fault whole) }
{
    match check_module(alloc, &whole) {
        Ok(()) => Ok(Valid { whole }),
        Err(halt) => Err(told_of(halt)),
    }
}
