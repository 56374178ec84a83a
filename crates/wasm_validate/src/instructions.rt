//! Instructions that open no block and close none.

ghost use Rattle.std.specs.Prelude.{◌≡◌};
ghost use Rattle.wasm_validate.specs.Rules.{type_of, loaded, stored, load_align, store_align, converted, conversion, label_at, has_type, all_known, all_same, table_type, above, misuse};
ghost use Rattle.wasm_validate.specs.Operands.{typed, plain};
ghost use Rattle.wasm_validate.specs.Steps.{Gives, Makes};

use crate::context::Context;
use crate::fault::{Stop, ValidKind};
use crate::operands::Operands;
use crate::stack::Stack;
use wasm_types::{Convert, Instr, LoadKind, StoreKind, Value, ValueType, same_result};

type Labels = Stack<Option<ValueType>>;

pub fn type_of(value: &Value) -> ValueType
    ensures { result ≡ type_of value.now }
{
    match value {
        Value::I32(_) => ValueType::I32,
        Value::I64(_) => ValueType::I64,
    }
}

fn loaded(kind: LoadKind) -> ValueType
    ensures { result ≡ loaded kind }
{
    match kind {
        LoadKind::I32
        | LoadKind::I32From8S
        | LoadKind::I32From8U
        | LoadKind::I32From16S
        | LoadKind::I32From16U => ValueType::I32,
        LoadKind::I64
        | LoadKind::I64From8S
        | LoadKind::I64From8U
        | LoadKind::I64From16S
        | LoadKind::I64From16U
        | LoadKind::I64From32S
        | LoadKind::I64From32U => ValueType::I64,
    }
}

fn stored(kind: StoreKind) -> ValueType
    ensures { result ≡ stored kind }
{
    match kind {
        StoreKind::I32 | StoreKind::I32To8 | StoreKind::I32To16 => ValueType::I32,
        StoreKind::I64 | StoreKind::I64To8 | StoreKind::I64To16 | StoreKind::I64To32 => {
            ValueType::I64
        }
    }
}

// The greatest exponent of an alignment.
fn load_align(kind: LoadKind) -> u32
    ensures { result ≡ load_align kind }
{
    match kind {
        LoadKind::I32From8S | LoadKind::I32From8U | LoadKind::I64From8S | LoadKind::I64From8U => 0,
        LoadKind::I32From16S | LoadKind::I32From16U | LoadKind::I64From16S | LoadKind::I64From16U =>
            1,
        LoadKind::I32 | LoadKind::I64From32S | LoadKind::I64From32U => 2,
        LoadKind::I64 => 3,
    }
}

fn store_align(kind: StoreKind) -> u32
    ensures { result ≡ store_align kind }
{
    match kind {
        StoreKind::I32To8 | StoreKind::I64To8 => 0,
        StoreKind::I32To16 | StoreKind::I64To16 => 1,
        StoreKind::I32 | StoreKind::I64To32 => 2,
        StoreKind::I64 => 3,
    }
}

fn converted(op: Convert) -> ValueType
    ensures { result ≡ converted op }
{
    match op {
        Convert::WrapI64 => ValueType::I64,
        Convert::ExtendI32S | Convert::ExtendI32U => ValueType::I32,
    }
}

fn conversion(op: Convert) -> ValueType
    ensures { result ≡ conversion op }
{
    match op {
        Convert::WrapI64 => ValueType::I32,
        Convert::ExtendI32S | Convert::ExtendI32U => ValueType::I64,
    }
}

fn label_at(labels: &Labels, index: u32) -> Result<Option<ValueType>, Stop>
    ensures { Gives (λ t. t) result (label_at labels.now index) }
{
    match labels.get(index as usize) {
        Some(label) => Ok(label),
        None => Err(Stop::Fault(ValidKind::UnknownLabel)),
    }
}

fn has_type(kind: Option<ValueType>, label: Option<Option<ValueType>>) -> bool
    ensures { result ≡ has_type kind label }
{
    match label {
        Some(label) => same_result(kind, label),
        None => false,
    }
}

// Whether all these labels are there.
fn all_known(labels: &Labels, indices: &[u32]) -> bool
    ensures { result ≡ all_known labels.now indices.now }
{
    for index in indices {
        if labels.len() <= *index as usize {
            return false;
        }
    }
    true
}

// Whether all these labels have one type.
fn all_same(labels: &Labels, kind: Option<ValueType>, indices: &[u32]) -> bool
    ensures { result ≡ all_same labels.now kind indices.now }
{
    for index in indices {
        if !has_type(kind, labels.get(*index as usize)) {
            return false;
        }
    }
    true
}

fn table_type(labels: &Labels, indices: &[u32], other: u32) -> Result<Option<ValueType>, Stop>
    ensures { Gives (λ t. t) result (table_type labels.now indices.now other) }
{
    let kind = label_at(labels, other)?;
    if !all_known(labels, indices) {
        return Err(Stop::Fault(ValidKind::UnknownLabel));
    }
    if !all_same(labels, kind, indices) {
        return Err(Stop::Fault(ValidKind::TypeMismatch));
    }
    Ok(kind)
}

// Takes and gives what an instruction does.
fn apply(
    operands: &mut Operands,
    labels: &Labels,
    context: &Context,
    instr: &Instr,
) -> Result<(), Stop>
    ensures { Makes result operands.new (typed context.now labels.now instr.now operands.old) }
{
    match instr {
        Instr::Unreachable => operands.branch(None),
        Instr::Br(label) => {
            let kind = label_at(labels, *label)?;
            operands.branch(kind)
        }
        Instr::BrIf(label) => {
            let kind = label_at(labels, *label)?;
            operands.branch_if(kind)
        }
        Instr::BrTable {
            labels: indices,
            other,
        } => {
            let kind = table_type(labels, indices.items(), *other)?;
            operands.branch_by_index(kind)
        }
        Instr::Return => operands.branch(context.result),
        Instr::Call(function) => {
            let kind = context.function_at(*function)?;
            operands.call(kind)
        }
        Instr::CallIndirect(index) => {
            let kind = context.type_at(*index)?;
            context.some_table()?;
            operands.call_indirect(kind)
        }
        Instr::Drop => operands.take_any(),
        Instr::Select => operands.select(),
        Instr::LocalGet(local) => {
            let kind = context.local_at(*local)?;
            operands.give(kind)
        }
        Instr::LocalSet(local) => {
            let kind = context.local_at(*local)?;
            operands.take(kind)
        }
        Instr::LocalTee(local) => {
            let kind = context.local_at(*local)?;
            operands.map(kind, kind)
        }
        Instr::GlobalGet(global) => {
            let found = context.global_at(*global)?;
            operands.give(found.kind)
        }
        Instr::GlobalSet(global) => {
            let found = context.global_at(*global)?;
            operands.take(found.kind)
        }
        Instr::Load { kind, .. } => {
            context.some_memory()?;
            operands.map(ValueType::I32, loaded(*kind))
        }
        Instr::Store { kind, .. } => {
            context.some_memory()?;
            operands.store(stored(*kind))
        }
        Instr::MemorySize => {
            context.some_memory()?;
            operands.give(ValueType::I32)
        }
        Instr::MemoryGrow => {
            context.some_memory()?;
            operands.map(ValueType::I32, ValueType::I32)
        }
        Instr::Const(value) => operands.give(type_of(value)),
        Instr::I32Test(_) => operands.map(ValueType::I32, ValueType::I32),
        Instr::I32Compare(_) => operands.merge(ValueType::I32, ValueType::I32),
        Instr::I32Unary(_) => operands.map(ValueType::I32, ValueType::I32),
        Instr::I32Binary(_) => operands.merge(ValueType::I32, ValueType::I32),
        Instr::I64Test(_) => operands.map(ValueType::I64, ValueType::I32),
        Instr::I64Compare(_) => operands.merge(ValueType::I64, ValueType::I32),
        Instr::I64Unary(_) => operands.map(ValueType::I64, ValueType::I64),
        Instr::I64Binary(_) => operands.merge(ValueType::I64, ValueType::I64),
        Instr::Convert(op) => operands.map(converted(*op), conversion(*op)),
        Instr::Nop | Instr::Block(_) | Instr::Loop(_) | Instr::If(_) | Instr::Else | Instr::End => {
            Ok(())
        }
    }
}

fn above(most: u32, align: u32) -> Option<ValidKind>
    ensures { result ≡ above most align }
{
    if most < align {
        Some(ValidKind::BadAlign)
    } else {
        None
    }
}

// What is wrong with an instruction, its operands aside.
fn misuse(context: &Context, instr: &Instr) -> Option<ValidKind>
    ensures { result ≡ misuse context.now instr.now }
{
    match instr {
        Instr::GlobalSet(global) => match context.globals.get(*global as usize) {
            Some(found) => {
                if found.mutable {
                    None
                } else {
                    Some(ValidKind::ImmutableGlobal)
                }
            }
            None => None,
        },
        Instr::Load { kind, align, .. } => above(load_align(*kind), *align),
        Instr::Store { kind, align, .. } => above(store_align(*kind), *align),
        _ => None,
    }
}

/// The operands after an instruction.
pub fn plain(
    operands: &mut Operands,
    labels: &Labels,
    context: &Context,
    instr: &Instr,
) -> Result<(), Stop>
    ensures { Makes result operands.new (plain context.now labels.now instr.now operands.old) }
{
    apply(operands, labels, context, instr)?;
    match misuse(context, instr) {
        Some(kind) => Err(Stop::Fault(kind)),
        None => operands.low(),
    }
}
