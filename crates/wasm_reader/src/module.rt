//! Modules (section 5.5.15).

ghost use Rattle.std.specs.Prelude.{◌≡◌, ◌⊎◌, IfOk, IfErr, Ok, []};
ghost use Rattle.wasm_types.specs.declared.modules.Module.{Module};
ghost use Rattle.wasm_code.specs.Reading.{Gives, Answers, no_memory, vector_at};
ghost use Rattle.wasm_reader.specs.Grammar.{IsModule};
ghost use Rattle.wasm_reader.specs.FirstFault.{IsFirstFault};
ghost use Rattle.wasm_reader.specs.Sections.{magic_at, version_at, ended_at, end_at, section_at, sections_at, whole_at, module_at};

use crate::bodies::Bodies;
use crate::parts::{Elements, Exports, Globals, Imports, Segments, Start};
use crate::sections::{read_section, skip_customs};
use crate::types::{FuncTypes, Memories, Tables};
use std::alloc::Global;
use wasm_code::{
    Field, Index, ReadFault, ReadKind, Scope, Stop, Vector, fault_at, short_of, told_of,
};
use wasm_types::limits::{MOST_BYTES, MOST_FUNCTIONS, MOST_GLOBALS, MOST_TYPES};
use wasm_types::{Items, Module};

// What follows the four bytes of the magic.
#[tactic(auto, unfolding(crate::specs::Sections::magic_at))]
fn read_magic(scope: Scope, bytes: &[u8]) -> Result<&[u8], Stop>
    ensures { Gives (λ x. x.now) result (magic_at scope bytes.now) }
{
    match bytes {
        [a, b, c, d, rest @ ..] => {
            if (*a == 0x00 && *b == 0x61) && (*c == 0x73 && *d == 0x6D) {
                return Ok(rest);
            }
            Err(Stop::Fault(fault_at(ReadKind::BadMagic, scope, bytes)))
        }
        _ => Err(Stop::Fault(short_of(scope))),
    }
}

// What follows the four bytes of the version.
#[tactic(auto, unfolding(crate::specs::Sections::version_at))]
fn read_version(scope: Scope, bytes: &[u8]) -> Result<&[u8], Stop>
    ensures { Gives (λ x. x.now) result (version_at scope bytes.now) }
{
    match bytes {
        [a, b, c, d, rest @ ..] => {
            if (*a == 0x01 && *b == 0x00) && (*c == 0x00 && *d == 0x00) {
                return Ok(rest);
            }
            Err(Stop::Fault(fault_at(ReadKind::BadVersion, scope, bytes)))
        }
        _ => Err(Stop::Fault(short_of(scope))),
    }
}

// The module, if nothing follows its last section and its counts agree.
#[tactic(auto, unfolding(crate::specs::Sections::ended_at))]
fn ended(scope: Scope, whole: Module, bytes: &[u8]) -> Result<Module, Stop>
    ensures { Gives (λ m. m) result (ended_at scope whole bytes.now) }
{
    match bytes {
        [_, ..] => Err(Stop::Fault(fault_at(ReadKind::SectionOrder, scope, bytes))),
        [] => {
            if whole.functions.items().len() == whole.code.items().len() {
                return Ok(whole);
            }
            Err(Stop::Fault(fault_at(ReadKind::CountMismatch, scope, bytes)))
        }
    }
}

#[tactic(auto, unfolding(crate::specs::Sections::end_at))]
fn read_end(scope: Scope, whole: Module, bytes: &[u8]) -> Result<Module, Stop>
    ensures { Gives (λ m. m) result (end_at scope whole bytes.now) }
{
    let rest = skip_customs(scope, bytes)?;
    ended(scope, whole, rest)
}

// A section with a vector of so many items at most; none stand where it is left out.
fn read_list<'a, F: Field + Drop>(
    id: u8,
    limit: u32,
    field: F,
    alloc: Global,
    scope: Scope,
    bytes: &'a [u8],
) -> Result<(Items<F::Item>, &'a [u8]), Stop>
    ensures { Gives (λ x. (x.0, x.1.now)) result (section_at id [] (vector_at limit (F.reading field)) scope bytes.now) }
{
    let none = Items::of(Vec::new(alloc));
    read_section(id, none, &Vector { limit, field }, alloc, scope, bytes)
}

// The sections of a module, and its end.
#[tactic(auto, unfolding(crate::specs::Sections::sections_at))]
fn read_sections(alloc: Global, scope: Scope, bytes: &[u8]) -> Result<Module, Stop>
    ensures { Gives (λ m. m) result (sections_at scope bytes.now) }
{
    let (types, rest) = read_list(1, MOST_TYPES, FuncTypes, alloc, scope, bytes)?;
    let (imports, rest) = read_list(2, u32::MAX, Imports, alloc, scope, rest)?;
    let (functions, rest) = read_list(3, MOST_FUNCTIONS, Index, alloc, scope, rest)?;
    let (tables, rest) = read_list(4, u32::MAX, Tables, alloc, scope, rest)?;
    let (memories, rest) = read_list(5, u32::MAX, Memories, alloc, scope, rest)?;
    let (globals, rest) = read_list(6, MOST_GLOBALS, Globals, alloc, scope, rest)?;
    let (exports, rest) = read_list(7, u32::MAX, Exports, alloc, scope, rest)?;
    let (start, rest) = read_section(8, None, &Start, alloc, scope, rest)?;
    let (elements, rest) = read_list(9, u32::MAX, Elements, alloc, scope, rest)?;
    let bodies = Bodies {
        types: types.items(),
        functions: functions.items(),
    };
    let (code, rest) = read_section(10, Items::of(Vec::new(alloc)), &bodies, alloc, scope, rest)?;
    let (segments, rest) = read_list(11, u32::MAX, Segments, alloc, scope, rest)?;
    let whole = Module {
        types,
        imports,
        functions,
        tables,
        memories,
        globals,
        exports,
        start,
        elements,
        code,
        segments,
    };
    read_end(scope, whole, rest)
}

// The module that all of the bytes spell.
#[tactic(auto, unfolding(crate::specs::Sections::module_at))]
fn read_all(alloc: Global, bytes: &[u8]) -> Result<Module, ReadFault>
    ensures { Answers (λ m. m) result (module_at bytes.now) }
{
    if MOST_BYTES < bytes.len() {
        return Err(ReadFault {
            kind: ReadKind::TooLarge,
            place: 0,
        });
    }
    let scope = Scope {
        end: bytes.len(),
        short: ReadKind::Truncated,
    };
    match read_whole(alloc, scope, bytes) {
        Ok(whole) => Ok(whole),
        Err(stop) => Err(told_of(stop)),
    }
}

// The header and the sections.
#[tactic(auto, unfolding(crate::specs::Sections::whole_at))]
fn read_whole(alloc: Global, scope: Scope, bytes: &[u8]) -> Result<Module, Stop>
    ensures { Gives (λ m. m) result (whole_at scope bytes.now) }
{
    let rest = read_magic(scope, bytes)?;
    let rest = read_version(scope, rest)?;
    read_sections(alloc, scope, rest)
}

/// Reads a module. With `OutOfMemory` the place is 0.
pub fn read_module(alloc: Global, bytes: &[u8]) -> Result<Module, ReadFault>
    // What is read is the module that the bytes spell.
    ensures found { IfOk result (λ m. IsModule bytes.now m) }

    // A module that the bytes spell is read, unless memory runs out: so it is the only one.
    ensures only { (m : Module) → IsModule bytes.now m → Answers (λ x. x) result (Ok m) }

    // Which fault it is.
    ensures exact { Answers (λ m. m) result (module_at bytes.now) }

    // The fault is the first one: nothing is wrong before its place, and nothing that follows mends it, with the
    // exceptions that are named there.
    ensures first { IfErr result (λ fault. (fault ≡ no_memory) ⊎ IsFirstFault bytes.now fault) }
{
    read_all(alloc, bytes)
}
