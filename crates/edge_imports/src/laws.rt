//! A law of the table of calls: the contract of a function that does nothing.

ghost use Rattle.std.specs.Prelude.{◌≡◌, Some};
ghost use Rattle.edge_imports.specs.declared.hostcall.Hostcall.{Hostcall};
ghost use Rattle.edge_imports.specs.Table.{row_of, call_named};

/// Each call is found by its own module and name, so no two of them have both in common.
pub fn each_call_is_named()
    ensures { (call : Hostcall) → call_named (row_of call).module_name (row_of call).name ≡ Some call }
{}
