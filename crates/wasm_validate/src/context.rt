//! What code stands in (section 3.1.1).

ghost use Rattle.std.specs.Prelude.{◌≡◌};
ghost use Rattle.wasm_validate.specs.Rules.{Context as Stands, type_at, function_at, local_at, global_at, some_table, some_memory};
ghost use Rattle.wasm_validate.specs.Steps.{Gives};

use crate::fault::{Stop, ValidKind};
use std::marker::Model;
use wasm_types::{FuncType, GlobalType, ValueType};

/// What code stands in (section 3.1.1). A function is the index of its type.
#[derive(Drop)]
pub struct Context<'a> {
    pub types: &'a [FuncType],
    pub functions: &'a [u32],
    pub globals: &'a [GlobalType],
    pub tables: usize,
    pub memories: usize,
    pub locals: &'a [ValueType],
    pub result: Option<ValueType>,
}

impl<'a> Model for Context<'a> {
    ghost Value = { Stands };

    ghost view = { λ s. record { types = s.types.now; functions = s.functions.now; globals = s.globals.now; tables = s.tables; memories = s.memories; locals = s.locals.now; result = s.result } };
}

impl Context<'_> {
    pub fn type_at(&self, index: u32) -> Result<&FuncType, Stop>
        ensures { Gives (λ t. t.now) result (type_at self.now index) }
    {
        match self.types.get(index as usize) {
            Some(found) => Ok(found),
            None => Err(Stop::Fault(ValidKind::UnknownType)),
        }
    }

    pub fn function_at(&self, index: u32) -> Result<&FuncType, Stop>
        ensures { Gives (λ t. t.now) result (function_at self.now index) }
    {
        match self.functions.get(index as usize) {
            Some(found) => self.type_at(*found),
            None => Err(Stop::Fault(ValidKind::UnknownFunction)),
        }
    }

    pub fn local_at(&self, index: u32) -> Result<ValueType, Stop>
        ensures { Gives (λ t. t) result (local_at self.now index) }
    {
        match self.locals.get(index as usize) {
            Some(found) => Ok(*found),
            None => Err(Stop::Fault(ValidKind::UnknownLocal)),
        }
    }

    pub fn global_at(&self, index: u32) -> Result<GlobalType, Stop>
        ensures { Gives (λ g. g) result (global_at self.now index) }
    {
        match self.globals.get(index as usize) {
            Some(found) => Ok(*found),
            None => Err(Stop::Fault(ValidKind::UnknownGlobal)),
        }
    }

    pub fn some_table(&self) -> Result<(), Stop>
        ensures { Gives (λ x. x) result (some_table self.now) }
    {
        if 0 < self.tables {
            Ok(())
        } else {
            Err(Stop::Fault(ValidKind::UnknownTable))
        }
    }

    pub fn some_memory(&self) -> Result<(), Stop>
        ensures { Gives (λ x. x) result (some_memory self.now) }
    {
        if 0 < self.memories {
            Ok(())
        } else {
            Err(Stop::Fault(ValidKind::UnknownMemory))
        }
    }
}
