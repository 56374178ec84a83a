//! Types (section 5.3).

ghost use Rattle.std.specs.Prelude.{◌≡◌, None, Some};
ghost use Rattle.wasm_code.specs.Reading.{Gives};
ghost use Rattle.wasm_code.specs.Instructions.{value_type_at};
ghost use Rattle.wasm_reader.specs.Reading.{byte_at, results_at, func_type_at, flag_at, limits_at, memory_at, table_at, global_type_at};

use std::alloc::Global;
use wasm_code::{
    Field, ReadKind, Scope, Stop, fault_at, read_count, read_value_type, read_vector, short_of,
};
use wasm_types::limits::{MOST_ENTRIES, MOST_PAGES, PAGES};
use wasm_types::{FuncType, GlobalType, Limits, ValueType};

// What follows a byte that must be this one.
#[tactic(auto, unfolding(crate::specs::Reading::byte_at))]
fn read_byte(byte: u8, scope: Scope, bytes: &[u8]) -> Result<&[u8], Stop>
    ensures { Gives (λ x. x.now) result (byte_at byte scope bytes.now) }
{
    match bytes {
        [] => Err(Stop::Fault(short_of(scope))),
        [first, rest @ ..] => {
            if *first == byte {
                return Ok(rest);
            }
            Err(Stop::Fault(fault_at(ReadKind::BadForm, scope, bytes)))
        }
    }
}

/// A value type as an item.
#[derive(Drop)]
struct ValueTypes;

impl Field for ValueTypes {
    type Item = ValueType;

    ghost reading = { λ _. value_type_at };

    fn read<'a>(
        &self,
        _alloc: Global,
        scope: Scope,
        bytes: &'a [u8],
    ) -> Result<(ValueType, &'a [u8]), Stop> {
        read_value_type(scope, bytes)
    }
}

#[tactic(auto, unfolding(crate::specs::Reading::results_at))]
fn read_results(scope: Scope, bytes: &[u8]) -> Result<(Option<ValueType>, &[u8]), Stop>
    ensures { Gives (λ x. (x.0, x.1.now)) result (results_at scope bytes.now) }
{
    let (count, rest) = read_count(1, scope, bytes)?;
    if count == 0 {
        return Ok((None, rest));
    }
    let (kind, rest) = read_value_type(scope, rest)?;
    Ok((Some(kind), rest))
}

#[tactic(auto, unfolding(crate::specs::Reading::func_type_at))]
fn read_func_type(alloc: Global, scope: Scope, bytes: &[u8]) -> Result<(FuncType, &[u8]), Stop>
    ensures { Gives (λ x. (x.0, x.1.now)) result (func_type_at scope bytes.now) }
{
    let rest = read_byte(0x60, scope, bytes)?;
    let (params, rest) = read_vector(&ValueTypes, u32::MAX, alloc, scope, rest)?;
    let (result, rest) = read_results(scope, rest)?;
    Ok((FuncType { params, result }, rest))
}

/// A function type as an item.
#[derive(Drop)]
pub(crate) struct FuncTypes;

impl Field for FuncTypes {
    type Item = FuncType;

    ghost reading = { λ _. func_type_at };

    fn read<'a>(
        &self,
        alloc: Global,
        scope: Scope,
        bytes: &'a [u8],
    ) -> Result<(FuncType, &'a [u8]), Stop> {
        read_func_type(alloc, scope, bytes)
    }
}

// A byte that is zero or one.
#[tactic(auto, unfolding(crate::specs::Reading::flag_at))]
fn read_flag(scope: Scope, bytes: &[u8]) -> Result<(bool, &[u8]), Stop>
    ensures { Gives (λ x. (x.0, x.1.now)) result (flag_at scope bytes.now) }
{
    match bytes {
        [] => Err(Stop::Fault(short_of(scope))),
        [0x00, rest @ ..] => Ok((false, rest)),
        [0x01, rest @ ..] => Ok((true, rest)),
        [_, ..] => Err(Stop::Fault(fault_at(ReadKind::BadForm, scope, bytes))),
    }
}

// Limits, of which the least and the stated most may not exceed their own.
#[tactic(auto, unfolding(crate::specs::Reading::limits_at))]
fn read_limits(least: u32, most: u32, scope: Scope, bytes: &[u8]) -> Result<(Limits, &[u8]), Stop>
    ensures { Gives (λ x. (x.0, x.1.now)) result (limits_at least most scope bytes.now) }
{
    let (flag, rest) = read_flag(scope, bytes)?;
    let (low, rest) = read_count(least, scope, rest)?;
    if flag {
        let (high, rest) = read_count(most, scope, rest)?;
        return Ok((
            Limits {
                least: low,
                most: Some(high),
            },
            rest,
        ));
    }
    Ok((
        Limits {
            least: low,
            most: None,
        },
        rest,
    ))
}

#[tactic(auto, unfolding(crate::specs::Reading::memory_at))]
pub(crate) fn read_memory(scope: Scope, bytes: &[u8]) -> Result<(Limits, &[u8]), Stop>
    ensures { Gives (λ x. (x.0, x.1.now)) result (memory_at scope bytes.now) }
{
    read_limits(MOST_PAGES, PAGES, scope, bytes)
}

#[tactic(auto, unfolding(crate::specs::Reading::table_at))]
pub(crate) fn read_table(scope: Scope, bytes: &[u8]) -> Result<(Limits, &[u8]), Stop>
    ensures { Gives (λ x. (x.0, x.1.now)) result (table_at scope bytes.now) }
{
    let rest = read_byte(0x70, scope, bytes)?;
    read_limits(MOST_ENTRIES, u32::MAX, scope, rest)
}

/// A memory type as an item.
#[derive(Drop)]
pub(crate) struct Memories;

impl Field for Memories {
    type Item = Limits;

    ghost reading = { λ _. memory_at };

    fn read<'a>(
        &self,
        _alloc: Global,
        scope: Scope,
        bytes: &'a [u8],
    ) -> Result<(Limits, &'a [u8]), Stop> {
        read_memory(scope, bytes)
    }
}

/// A table type as an item.
#[derive(Drop)]
pub(crate) struct Tables;

impl Field for Tables {
    type Item = Limits;

    ghost reading = { λ _. table_at };

    fn read<'a>(
        &self,
        _alloc: Global,
        scope: Scope,
        bytes: &'a [u8],
    ) -> Result<(Limits, &'a [u8]), Stop> {
        read_table(scope, bytes)
    }
}

#[tactic(auto, unfolding(crate::specs::Reading::global_type_at))]
pub(crate) fn read_global_type(scope: Scope, bytes: &[u8]) -> Result<(GlobalType, &[u8]), Stop>
    ensures { Gives (λ x. (x.0, x.1.now)) result (global_type_at scope bytes.now) }
{
    let (kind, rest) = read_value_type(scope, bytes)?;
    let (mutable, rest) = read_flag(scope, rest)?;
    Ok((GlobalType { kind, mutable }, rest))
}
