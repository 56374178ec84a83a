//! The operands of a block while its instructions are checked.

ghost use Rattle.std.specs.Prelude.{◌≡◌, [], ◌∷◌, ◌≤◌, reverse};
ghost use Rattle.std.specs.Option.{option_to_list};
ghost use Rattle.wasm_types.specs.declared.types.ValueType.TheVariants.{I32};
ghost use Rattle.wasm_validate.specs.Rules.{Mono, Leaves, AnyDrop, AnySelect, params_of};
ghost use Rattle.wasm_validate.specs.Operands.{is_type, pop, take_one, take_all, give, left, by_rule, meet, stacked, low, ends};
ghost use Rattle.wasm_validate.specs.Steps.{Gives, Makes, MakesOf};

use crate::fault::{Stop, ValidKind};
use crate::stack::Stack;
use wasm_types::limits::MOST_OPERANDS;
use wasm_types::{FuncType, ValueType};

/// How many operands there are below the block's own, whether the code that follows is never reached, and what is
/// known of the block's own: of one that comes from code that is never reached, nothing.
#[derive(Drop)]
pub struct Operands {
    pub height: usize,
    pub unreachable: bool,
    pub known: Stack<Option<ValueType>>,
}

// Whether an operand can be of a type.
fn is_type(kind: ValueType, operand: Option<ValueType>) -> bool
    ensures { result ≡ is_type kind operand }
{
    match (kind, operand) {
        (_, None) => true,
        (ValueType::I32, Some(ValueType::I32)) => true,
        (ValueType::I64, Some(ValueType::I64)) => true,
        _ => false,
    }
}

// What both of two operands can be.
fn meet(first: Option<ValueType>, second: Option<ValueType>) -> Result<Option<ValueType>, Stop>
    ensures { Gives (λ k. k) result (meet first second) }
{
    match first {
        None => Ok(second),
        Some(kind) => {
            if is_type(kind, second) {
                Ok(first)
            } else {
                Err(Stop::Fault(ValidKind::TypeMismatch))
            }
        }
    }
}

impl Operands {
    // The topmost operand.
    fn pop(&mut self) -> Result<Option<ValueType>, Stop>
        ensures popped { MakesOf result self.new (pop self.old) }
        ensures stacked { stacked self.new ≤ stacked self.old }
    {
        match self.known.pop() {
            Some(operand) => Ok(operand),
            None => {
                if self.unreachable {
                    Ok(None)
                } else {
                    Err(Stop::Fault(ValidKind::TypeMismatch))
                }
            }
        }
    }

    // Takes an operand of this type.
    pub fn take(&mut self, kind: ValueType) -> Result<(), Stop>
        ensures taken { Makes result self.new (take_one kind self.old) }
        ensures stacked { stacked self.new ≤ stacked self.old }
    {
        let operand = self.pop()?;
        if is_type(kind, operand) {
            Ok(())
        } else {
            Err(Stop::Fault(ValidKind::TypeMismatch))
        }
    }

    pub fn take_any(&mut self) -> Result<(), Stop>
        ensures { Makes result self.new (by_rule AnyDrop self.old) }
    {
        let _ = self.pop()?;
        Ok(())
    }

    pub fn give(&mut self, kind: ValueType) -> Result<(), Stop>
        ensures { Makes result self.new (by_rule (Mono [] (kind ∷ [])) self.old) }
    {
        self.known.push(Some(kind))?;
        Ok(())
    }

    // The code that follows is never reached.
    fn leave(&mut self)
        ensures { self.new ≡ left self.old }
    {
        self.unreachable = true;
        self.known.clear();
    }

    pub fn take_optional(&mut self, kind: Option<ValueType>) -> Result<(), Stop>
        ensures { Makes result self.new (take_all (option_to_list kind) self.old) }
    {
        match kind {
            Some(kind) => self.take(kind),
            None => Ok(()),
        }
    }

    pub fn give_optional(&mut self, kind: Option<ValueType>) -> Result<(), Stop>
        ensures { Makes result self.new (by_rule (Mono [] (option_to_list kind)) self.old) }
    {
        match kind {
            Some(kind) => self.give(kind),
            None => Ok(()),
        }
    }

    /// One operand for another.
    pub fn map(&mut self, from: ValueType, to: ValueType) -> Result<(), Stop>
        ensures { Makes result self.new (by_rule (Mono (from ∷ []) (to ∷ [])) self.old) }
    {
        self.take(from)?;
        self.give(to)
    }

    /// One operand for two.
    pub fn merge(&mut self, from: ValueType, to: ValueType) -> Result<(), Stop>
        ensures { Makes result self.new (by_rule (Mono (from ∷ from ∷ []) (to ∷ [])) self.old) }
    {
        self.take(from)?;
        self.map(from, to)
    }

    /// A value, and below it the place where it is stored.
    pub fn store(&mut self, kind: ValueType) -> Result<(), Stop>
        ensures { Makes result self.new (by_rule (Mono (kind ∷ I32 ∷ []) []) self.old) }
    {
        self.take(kind)?;
        self.take(ValueType::I32)
    }

    pub fn select(&mut self) -> Result<(), Stop>
        ensures { Makes result self.new (by_rule AnySelect self.old) }
    {
        self.take(ValueType::I32)?;
        let second = self.pop()?;
        let first = self.pop()?;
        let both = meet(second, first)?;
        self.known.push(both)?;
        Ok(())
    }

    /// A branch that is always taken.
    pub fn branch(&mut self, kind: Option<ValueType>) -> Result<(), Stop>
        ensures { Makes result self.new (by_rule (Leaves (option_to_list kind)) self.old) }
    {
        self.take_optional(kind)?;
        self.leave();
        Ok(())
    }

    /// A branch to one of several labels.
    pub fn branch_by_index(&mut self, kind: Option<ValueType>) -> Result<(), Stop>
        ensures { Makes result self.new (by_rule (Leaves (I32 ∷ option_to_list kind)) self.old) }
    {
        self.take(ValueType::I32)?;
        self.branch(kind)
    }

    /// A branch that may be taken.
    pub fn branch_if(&mut self, kind: Option<ValueType>) -> Result<(), Stop>
        ensures { Makes result self.new (by_rule (Mono (I32 ∷ option_to_list kind) (option_to_list kind)) self.old) }
    {
        self.take(ValueType::I32)?;
        self.take_optional(kind)?;
        self.give_optional(kind)
    }

    // Takes arguments, the last one first.
    fn take_params(&mut self, params: &[ValueType]) -> Result<(), Stop>
        ensures { Makes result self.new (take_all (reverse params.now) self.old) }
    {
        let mut left = params.len();
        while 0 < left {
            left -= 1;
            self.take(params[left])?;
        }
        Ok(())
    }

    pub fn call(&mut self, kind: &FuncType) -> Result<(), Stop>
        ensures { Makes result self.new (by_rule (Mono (params_of kind.now) (option_to_list kind.now.result)) self.old) }
    {
        self.take_params(kind.params.items())?;
        self.give_optional(kind.result)
    }

    pub fn call_indirect(&mut self, kind: &FuncType) -> Result<(), Stop>
        ensures { Makes result self.new (by_rule (Mono (I32 ∷ params_of kind.now) (option_to_list kind.now.result)) self.old) }
    {
        self.take(ValueType::I32)?;
        self.call(kind)
    }

    /// Whether the limit on the height of operands is kept.
    pub fn low(&self) -> Result<(), Stop>
        ensures { Makes result self.now (low self.now) }
    {
        if MOST_OPERANDS < self.height.saturating_add(self.known.len()) {
            Err(Stop::Fault(ValidKind::TooHigh))
        } else {
            Ok(())
        }
    }

    /// The end of a block: its result and nothing else. No use is made of the operands after it.
    pub fn end(&mut self, kind: Option<ValueType>) -> Result<(), Stop>
        ensures { Makes result self.new (ends kind self.old) }
    {
        self.take_optional(kind)?;
        if self.known.is_empty() {
            Ok(())
        } else {
            Err(Stop::Fault(ValidKind::TypeMismatch))
        }
    }
}
