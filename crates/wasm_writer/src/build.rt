//! Modules for tests and tools, part by part.
//!
//! Nothing is checked: `wasm_validate` says whether a module is valid.

ghost use Rattle.std.specs.Prelude.{◌≡◌, ◌<◌, ◌^◌, ◌++◌, ◌∷◌, [], IfOk, length};
ghost use Rattle.wasm_types.specs.declared.instructions.Instr.TheVariants.{Const, End};
ghost use Rattle.wasm_types.specs.declared.values.Value.TheVariants as values;
ghost use Rattle.wasm_types.specs.declared.modules.ImportKind.TheVariants as kinds;
ghost use Rattle.wasm_types.specs.declared.modules.ExportKind.TheVariants as exports;
ghost use Rattle.wasm_writer.specs.Build.{is_function, first_defined, guest_exports, guest_of};

use std::alloc::{AllocError, Global};
use wasm_types::{
    Code, Export, ExportKind, FuncType, Import, ImportKind, Instr, Items, Limits, Locals, Module,
    Segment, Value, ValueType,
};

/// The type of a function with these parameters, which gives one result or none.
pub fn func_type(
    alloc: Global,
    params: &[ValueType],
    gives: Option<ValueType>,
) -> Result<FuncType, AllocError>
    ensures { IfOk result (λ t. t ≡ record { params = params.now; result = gives }) }
{
    Ok(FuncType {
        params: Items::of(params.to_vec(alloc)?),
        result: gives,
    })
}

/// The import of a function, whose type has this index.
pub fn import_function(
    alloc: Global,
    module: &str,
    name: &str,
    kind: u32,
) -> Result<Import, AllocError>
    ensures { IfOk result (λ i. i ≡ record { «module» = «module».now; name = name.now; kind = kinds.Function kind }) }
{
    Ok(Import {
        module: Items::of(module.as_bytes().to_vec(alloc)?),
        name: Items::of(name.as_bytes().to_vec(alloc)?),
        kind: ImportKind::Function(kind),
    })
}

fn export(alloc: Global, name: &str, kind: ExportKind, index: u32) -> Result<Export, AllocError>
    ensures { IfOk result (λ e. e ≡ record { name = name.now; kind = kind; index = index }) }
{
    Ok(Export {
        name: Items::of(name.as_bytes().to_vec(alloc)?),
        kind,
        index,
    })
}

/// The export of a function by its index, which counts the imported ones first.
pub fn export_function(alloc: Global, name: &str, index: u32) -> Result<Export, AllocError>
    ensures { IfOk result (λ e. e ≡ record { name = name.now; kind = exports.Function; index = index }) }
{
    export(alloc, name, ExportKind::Function, index)
}

/// A function's code: these locals beside its parameters, and these instructions. The last `End` is added.
pub fn body(alloc: Global, locals: &[ValueType], mut code: Vec<Instr>) -> Result<Code, AllocError>
    ensures { IfOk result (λ c. c ≡ record { locals = locals.now; body = code.items ++ End ∷ [] }) }
{
    code.push(Instr::End)?;
    Ok(Code {
        locals: Locals::of(alloc, locals)?,
        body: Items::of(code),
    })
}

/// Bytes that stand in memory 0 from this place on, in bytes, when the module starts.
pub fn data(alloc: Global, place: u32, bytes: &[u8]) -> Result<Segment, AllocError>
    ensures { IfOk result (λ s. s ≡ record { memory = 0; offset = Const (values.I32 place) ∷ (End ∷ []); bytes = bytes.now }) }
{
    let offset = vec![in alloc; Instr::Const(Value::I32(place)), Instr::End]?;
    Ok(Segment {
        memory: 0,
        offset: Items::of(offset),
        bytes: Items::of(bytes.to_vec(alloc)?),
    })
}

fn is_function(kind: ImportKind) -> bool
    ensures { result ≡ is_function kind }
{
    matches!(kind, ImportKind::Function(_))
}

// The index of the first function that is no import.
fn first_defined(imports: &[Import]) -> u32
    requires { length imports.now < 2 ^ 32 }
    ensures { result ≡ first_defined imports.now }
{
    imports
        .iter()
        .filter(|import| is_function(import.kind))
        .count() as u32
}

fn guest_exports(alloc: Global, imports: &[Import]) -> Result<Vec<Export>, AllocError>
    requires { length imports.now < 2 ^ 32 }
    ensures { IfOk result (λ es. es.items ≡ guest_exports imports.now) }
{
    let memory = export(alloc, "memory", ExportKind::Memory, 0)?;
    let start = export_function(alloc, "_start", first_defined(imports))?;
    Ok(vec![in alloc; memory, start]?)
}

/// A guest: functions, each with the index of its type and its code, the first of which is exported as `_start`, and
/// one memory of one page (65,536 bytes), exported as `memory`. It has no tables, globals, elements or start function.
pub fn guest(
    alloc: Global,
    types: Vec<FuncType>,
    imports: Vec<Import>,
    functions: Vec<(u32, Code)>,
    segments: Vec<Segment>,
) -> Result<Module, AllocError>
    requires { length imports.items < 2 ^ 32 }
    ensures { IfOk result (λ m. m ≡ guest_of types.items imports.items functions.items segments.items) }
{
    let exports = guest_exports(alloc, imports.as_slice())?;
    let page = Limits {
        least: 1,
        most: None,
    };
    let memories = vec![in alloc; page]?;
    let mut kinds = Vec::new(alloc);
    let mut code = Vec::new(alloc);
    for (kind, function) in functions {
        kinds.push(kind)?;
        code.push(function)?;
    }
    Ok(Module {
        types: Items::of(types),
        imports: Items::of(imports),
        functions: Items::of(kinds),
        tables: Items::of(Vec::new(alloc)),
        memories: Items::of(memories),
        globals: Items::of(Vec::new(alloc)),
        exports: Items::of(exports),
        start: None,
        elements: Items::of(Vec::new(alloc)),
        code: Items::of(code),
        segments: Items::of(segments),
    })
}
