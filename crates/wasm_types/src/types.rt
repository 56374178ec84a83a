//! Types (section 2.3).

ghost use Rattle.std.specs.Prelude.{◌≡◌};
ghost use Rattle.wasm_types.specs.Types.{same_type, same_result, same_types};

use items::Items;

/// A number type without floating point (section 2.3.1).
#[derive(Clone, Copy, Debug, PartialEq, Eq)]
pub enum ValueType {
    I32,
    I64,
}

/// Whether two value types are the same.
pub fn same_type(one: ValueType, other: ValueType) -> bool
    ensures { result ≡ same_type one other }
{
    matches!(
        (one, other),
        (ValueType::I32, ValueType::I32) | (ValueType::I64, ValueType::I64)
    )
}

/// Whether two functions have the same result, or neither has one.
pub fn same_result(one: Option<ValueType>, other: Option<ValueType>) -> bool
    ensures { result ≡ same_result one other }
{
    match (one, other) {
        (None, None) => true,
        (Some(one), Some(other)) => same_type(one, other),
        _ => false,
    }
}

/// Whether two rows of value types are the same. It ends with the shorter one.
pub fn same_types(ones: &[ValueType], others: &[ValueType]) -> bool
    ensures { result ≡ same_types ones.now others.now }
{
    match (ones.split_first(), others.split_first()) {
        (None, None) => true,
        (Some((one, ones)), Some((other, others))) => same_type(*one, *other)
            && same_types(ones, others),
        _ => false,
    }
}

/// The type of a function (section 2.3.3), which has one result at most (section 2.3.2).
#[derive(Debug, Drop, PartialEq, Eq)]
pub struct FuncType {
    pub params: Items<ValueType>,
    pub result: Option<ValueType>,
}

/// The size of a table in entries, or of a memory in pages of 65,536 bytes (section 2.3.4).
#[derive(Clone, Copy, Debug, PartialEq, Eq)]
pub struct Limits {
    pub least: u32,
    pub most: Option<u32>,
}

/// The type of a global (section 2.3.7).
#[derive(Clone, Copy, Debug, PartialEq, Eq)]
pub struct GlobalType {
    pub kind: ValueType,
    pub mutable: bool,
}
