//! Laws of reading, apart from how it is done. Each is the contract of a function that does nothing; the readers have
//! contracts by the same definitions.
//!
//! A text spells one module. What the first fault means for the parts of a module stands here; of a whole module it
//! is the clause `first` of [`crate::read_module`].
//!
//! Parts that no stated size ends have no exception. A body has one: too many parameters are told at its count of
//! groups of locals, even where that count is cut off. Sections have another: the bytes up to the end of a section
//! that is too small for what it holds are no beginning of a section of that size.

ghost use Rattle.std.specs.Prelude.{◌≡◌, List, ℕ};
ghost use Rattle.wasm_types.specs.declared.types.FuncType.{FuncType};
ghost use Rattle.wasm_types.specs.declared.modules.Module.{Module};
ghost use Rattle.wasm_code.specs.Instructions.{value_type_at};
ghost use Rattle.wasm_code.specs.FirstFault.{TellsFirst};
ghost use Rattle.wasm_reader.specs.Grammar.{IsModule};
ghost use Rattle.wasm_reader.specs.Reading.{name_at, bytes_at, func_type_at, limits_at, table_at, memory_at, global_type_at, import_at, global_at, export_at, element_at, segment_at, start_at};
ghost use Rattle.wasm_reader.specs.Sections.{body_at, code_section_at, sections_at};
ghost use Rattle.wasm_reader.specs.FirstFault.{IsCut, IsUnfinished, TellsFirstBut, SectionsTellFirst};

/// Bytes spell one module at most.
pub fn spells_one_module()
    ensures { (bytes : List ℕ) (m : Module) (n : Module) → IsModule bytes m → IsModule bytes n → m ≡ n }
{}

/// The fault of a name, of a type, of an import, global, export, start or segment is the first one.
pub fn parts_tell_first()
    ensures names { TellsFirst name_at }
    ensures bytes { TellsFirst bytes_at }
    ensures value_types { TellsFirst value_type_at }
    ensures function_types { TellsFirst func_type_at }
    ensures limits { (least : ℕ) (most : ℕ) → TellsFirst (limits_at least most) }
    ensures tables { TellsFirst table_at }
    ensures memories { TellsFirst memory_at }
    ensures global_types { TellsFirst global_type_at }
    ensures imports { TellsFirst import_at }
    ensures globals { TellsFirst global_at }
    ensures exports { TellsFirst export_at }
    ensures starts { TellsFirst start_at }
    ensures elements { TellsFirst element_at }
    ensures segments { TellsFirst segment_at }
{}

/// The fault of the locals and code of a function, of all code, and of all sections is the first one, but for the
/// exceptions.
pub fn sections_tell_first()
    ensures bodies { (params : ℕ) → TellsFirstBut IsCut (body_at params) }
    ensures code { (types : List FuncType) (functions : List ℕ) → TellsFirstBut IsCut (code_section_at types functions) }
    ensures sections { SectionsTellFirst IsUnfinished sections_at }
{}
