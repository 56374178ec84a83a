//! Types (section 5.3).

ghost use Rattle.std.specs.Prelude.{◌≡◌, ◌++◌, ◌∷◌, [], IfOk};
ghost use Rattle.std.specs.Option.{option_to_list};
ghost use Rattle.wasm_reader.specs.Grammar.{flag_byte};
ghost use Rattle.wasm_writer.specs.Spelled.{type_byte, result_byte, type_text, vector_text, func_type_text, size_text, limits_text, table_text, global_type_text};

use crate::numbers::write_number;
use crate::vectors::{Spelling, write_vector};
use std::alloc::AllocError;
use wasm_types::{FuncType, GlobalType, Limits, ValueType};

/// The byte of a value type (section 5.3.1).
pub(crate) fn type_byte(kind: ValueType) -> u8
    ensures { result ≡ type_byte kind }
{
    match kind {
        ValueType::I32 => 0x7F,
        ValueType::I64 => 0x7E,
    }
}

/// The byte of a block's result (section 5.3.2).
pub(crate) fn result_byte(kind: Option<ValueType>) -> u8
    ensures { result ≡ result_byte kind }
{
    match kind {
        None => 0x40,
        Some(kind) => type_byte(kind),
    }
}

/// A value type as an item.
#[derive(Drop)]
struct ValueTypes;

impl Spelling for ValueTypes {
    type Item = ValueType;

    ghost text = { λ _. type_text };

    fn write(&self, out: &mut Vec<u8>, item: &ValueType) -> Result<(), AllocError> {
        out.push(type_byte(*item))?;
        Ok(())
    }
}

fn write_results(out: &mut Vec<u8>, kind: Option<ValueType>) -> Result<(), AllocError>
    ensures { IfOk result (λ _. out.new.items ≡ out.old.items ++ vector_text type_text (option_to_list kind)) }
{
    match kind {
        None => write_vector(out, &ValueTypes, &[]),
        Some(kind) => write_vector(out, &ValueTypes, &[kind]),
    }
}

#[tactic(auto, unfolding(crate::specs::Spelled::func_type_text))]
fn write_func_type(out: &mut Vec<u8>, item: &FuncType) -> Result<(), AllocError>
    ensures { IfOk result (λ _. out.new.items ≡ out.old.items ++ func_type_text item.now) }
{
    out.push(0x60)?;
    write_vector(out, &ValueTypes, item.params.items())?;
    write_results(out, item.result)
}

/// A function type as an item.
#[derive(Drop)]
pub(crate) struct FuncTypes;

impl Spelling for FuncTypes {
    type Item = FuncType;

    ghost text = { λ _. func_type_text };

    fn write(&self, out: &mut Vec<u8>, item: &FuncType) -> Result<(), AllocError> {
        write_func_type(out, item)
    }
}

fn flag_byte(flag: bool) -> u8
    ensures { result ≡ flag_byte flag }
{
    if flag { 0x01 } else { 0x00 }
}

fn write_size(out: &mut Vec<u8>, least: u32, most: Option<u32>) -> Result<(), AllocError>
    ensures { IfOk result (λ _. out.new.items ≡ out.old.items ++ size_text least most) }
{
    match most {
        None => {
            out.push(0x00)?;
            write_number(out, u64::from(least))
        }
        Some(most) => {
            out.push(0x01)?;
            write_number(out, u64::from(least))?;
            write_number(out, u64::from(most))
        }
    }
}

#[tactic(auto, unfolding(crate::specs::Spelled::limits_text))]
pub(crate) fn write_limits(out: &mut Vec<u8>, limits: Limits) -> Result<(), AllocError>
    ensures { IfOk result (λ _. out.new.items ≡ out.old.items ++ limits_text limits) }
{
    write_size(out, limits.least, limits.most)
}

#[tactic(auto, unfolding(crate::specs::Spelled::table_text))]
pub(crate) fn write_table(out: &mut Vec<u8>, limits: Limits) -> Result<(), AllocError>
    ensures { IfOk result (λ _. out.new.items ≡ out.old.items ++ table_text limits) }
{
    out.push(0x70)?;
    write_limits(out, limits)
}

/// A memory type as an item.
#[derive(Drop)]
pub(crate) struct Memories;

impl Spelling for Memories {
    type Item = Limits;

    ghost text = { λ _. limits_text };

    fn write(&self, out: &mut Vec<u8>, item: &Limits) -> Result<(), AllocError> {
        write_limits(out, *item)
    }
}

/// A table type as an item.
#[derive(Drop)]
pub(crate) struct Tables;

impl Spelling for Tables {
    type Item = Limits;

    ghost text = { λ _. table_text };

    fn write(&self, out: &mut Vec<u8>, item: &Limits) -> Result<(), AllocError> {
        write_table(out, *item)
    }
}

#[tactic(auto, unfolding(crate::specs::Spelled::global_type_text))]
pub(crate) fn write_global_type(out: &mut Vec<u8>, kind: GlobalType) -> Result<(), AllocError>
    ensures { IfOk result (λ _. out.new.items ≡ out.old.items ++ global_type_text kind) }
{
    out.push(type_byte(kind.kind))?;
    out.push(flag_byte(kind.mutable))?;
    Ok(())
}
