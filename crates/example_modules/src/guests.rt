//! The guests, made by the builders.

ghost use Rattle.std.specs.Prelude.{◌<◌, ◌^◌, IfOk, length};

use std::alloc::{AllocError, Global};
use wasm_types::{Code, FuncType, Import, Instr, Items, LoadKind, Module, Value, ValueType};
use wasm_writer::build::{body, data, export_function, func_type, guest, import_function};

/// The smallest module that is a guest: one function that does nothing, exported as `_start`. Without an import it needs
/// no memory.
pub fn smallest(alloc: Global) -> Result<Module, AllocError> {
    let types = vec![in alloc; func_type(alloc, &[], None)?]?;
    let functions = vec![in alloc; (0, body(alloc, &[], Vec::new(alloc))?)]?;
    let mut whole = guest(alloc, types, Vec::new(alloc), functions, Vec::new(alloc))?;
    whole.memories = Items::of(Vec::new(alloc));
    whole.exports = Items::of(vec![in alloc; export_function(alloc, "_start", 0)?]?);
    Ok(whole)
}

// Where things stand in the guest's memory: the handles of the response and of its body, the count of bytes that were
// written, and the text.
const RESPONSE: u32 = 0;

const BODY: u32 = 4;

const WRITTEN: u32 = 8;

const TEXT: u32 = 16;

const HELLO: &[u8; 6] = b"hello\n";

fn number(number: u32) -> Instr {
    Instr::Const(Value::I32(number))
}

// The number of 32 bits at the place that stands on the stack.
fn load() -> Instr {
    Instr::Load {
        kind: LoadKind::I32,
        align: 2,
        offset: 0,
    }
}

const WORD: ValueType = ValueType::I32;

/// Parameters, and whether a status is given.
const TYPES: [(&[ValueType], bool); 5] = [
    (&[], false),
    (&[ValueType::I64], true),
    (&[WORD], true),
    (&[WORD, WORD, WORD, WORD, WORD], true),
    (&[WORD, WORD, WORD], true),
];

fn types(alloc: Global) -> Result<Vec<FuncType>, AllocError> {
    let mut types = Vec::new(alloc);
    for (params, has_status) in TYPES {
        let gives = if has_status { Some(WORD) } else { None };
        types.push(func_type(alloc, params, gives)?)?;
    }
    Ok(types)
}

fn imports(alloc: Global) -> Result<Vec<Import>, AllocError>
    ensures { IfOk result (λ list. length list.items < 2 ^ 32) }
{
    Ok(vec![in alloc;
        import_function(alloc, "fastly_abi", "init", 1)?,
        import_function(alloc, "fastly_http_resp", "new", 2)?,
        import_function(alloc, "fastly_http_body", "new", 2)?,
        import_function(alloc, "fastly_http_body", "write", 3)?,
        import_function(alloc, "fastly_http_resp", "send_downstream", 4)?,
    ]?)
}

// The response and its body are made, the text is written into the body, and both are sent.
fn start(alloc: Global) -> Result<Code, AllocError> {
    let code = vec![in alloc;
        Instr::Block(None),
        Instr::Const(Value::I64(1)),
        Instr::Call(0),
        Instr::BrIf(0),
        number(RESPONSE),
        Instr::Call(1),
        Instr::BrIf(0),
        number(BODY),
        Instr::Call(2),
        Instr::BrIf(0),
        number(BODY),
        load(),
        number(TEXT),
        number(HELLO.len() as u32),
        number(0),
        number(WRITTEN),
        Instr::Call(3),
        Instr::BrIf(0),
        number(RESPONSE),
        load(),
        number(BODY),
        load(),
        number(0),
        Instr::Call(4),
        Instr::Drop,
        Instr::End,
    ]?;
    body(alloc, &[], code)
}

/// An answer with the status 200 and the body "hello\n". A call whose status isn't 0 ends the guest, which then has sent
/// nothing.
pub fn hello(alloc: Global) -> Result<Module, AllocError> {
    let types = types(alloc)?;
    let imports = imports(alloc)?;
    let functions = vec![in alloc; (0, start(alloc)?)]?;
    let segments = vec![in alloc; data(alloc, TEXT, HELLO)?]?;
    guest(alloc, types, imports, functions, segments)
}
