//! Modules that are read and written again. The bytes that are wanted are those that wat2wasm of wabt 1.0.32 writes.

use crate::told::{HEAD, bytes_of};
use std::alloc::{AllocError, Global};
use std::test::Fail;
use wasm_reader::read_module;
use wasm_types::{Code, FuncType, Instr, Items, Module, Value, ValueType};
use wasm_writer::build::*;
use wasm_writer::write_module;

/// Modules and the bytes that are wanted of them, behind the magic and the version; behind them a note.
const ROWS: &str = "\
01 04 01600000 03 02 0100 07 0a 01065f73746172740000 0a 04 0102000b;01 04 01600000 03 02 0100 07 0a 01065f73746172740000 0a 04 0102000b;a function that is exported
00 05 046d657461 01 8600 8100608000 00 03 838000 018000 00 03 0178ff 07 0a 01065f73746172740000 0a 8600 01830080000b 00 02 0161;01 04 01600000 03 02 0100 07 0a 01065f73746172740000 0a 04 0102000b;the same with longer numbers and custom sections
01 04 01600000 03 02 0100 0a 0c 010a 04017f007e027f017e 0b;01 04 01600000 03 02 0100 0a 08 0106 02037f017e 0b;locals in more groups than they need: 1, none of another type, and 2
01 04 01600000 03 02 0100 0a 09 0107 0280017f027f 0b;01 04 01600000 03 02 0100 0a 07 0105 0182017f 0b;
010100 020100 030100 040100 050100 060100 070100 090100 0a0100 0b0100;;sections of no items
01 04 01600000 03 02 0100 08 02 8000 0a 17 0115 00 41ff7f 1a 41c08000 1a 41bfff7f 1a 42ffff7f 1a 0b;01 04 01600000 03 02 0100 08 01 00 0a 12 0110 00 417f 1a 41c000 1a 41bf7f 1a 427f 1a 0b;a start function, and i32.const -1, 64, -65 and i64.const -1 with more bytes than they need
01 0a 0260000060027f7e017f 02 18 0203656e760463616c6c000103656e760462617365037f00 03 03 020100 04 05 0170010203 05 03 010001 06 0f 017e01428080808080808080807f0b 07 10 02066d656d6f727902000372756e0001 08 01 02 09 08 010023000b020001 0a 4e 02 45 02027f017e 0240 0340 2000 0d01 2000 0e02000100 0b 0b 2000 047f 417f 05 41c000 0b 2102 41bf7f 3502ac02 2104 413f 428001 3d00808001 2000 4000 1a 2000 2001 2000 110100 0b 06 00 4240 2401 0b 0b 09 01004180080b026869;01 0a 0260000060027f7e017f 02 18 0203656e760463616c6c000103656e760462617365037f00 03 03 020100 04 05 0170010203 05 03 010001 06 0f 017e01428080808080808080807f0b 07 10 02066d656d6f727902000372756e0001 08 01 02 09 08 010023000b020001 0a 4e 02 45 02027f017e 0240 0340 2000 0d01 2000 0e02000100 0b 0b 2000 047f 417f 05 41c000 0b 2102 41bf7f 3502ac02 2104 413f 428001 3d00808001 2000 4000 1a 2000 2001 2000 110100 0b 06 00 4240 2401 0b 0b 09 01004180080b026869;each kind of section and of operand";

fn rewritten(rt: &HostRuntime, bytes: &[u8]) -> Result<Vec<u8>, Fail> {
    let module = read_module(rt.alloc(), bytes).ok().ok_or("a fault")?;
    Ok(write_module(rt.alloc(), &module)?)
}

#[test]
fn modules_again(rt: HostRuntime) -> Result<(), Fail> {
    for row in ROWS.split('\n') {
        let (sections, rest) = row.split_once(';').ok_or("no bytes")?;
        let (wanted, _) = rest.split_once(';').ok_or("no bytes")?;
        let found = rewritten(&rt, &bytes_of(&rt, HEAD, sections)?)?;
        assert!(rt; found == bytes_of(&rt, HEAD, wanted)?, "{row}: {found:?}");
    }
    Ok(())
}

fn types(alloc: Global) -> Result<Vec<FuncType>, AllocError> {
    let word = ValueType::I32;
    let rows: [(&[ValueType], Option<ValueType>); 2] = [(&[], None), (&[word, word], Some(word))];
    let mut types = Vec::new(alloc);
    for (params, gives) in rows {
        types.push(func_type(alloc, params, gives)?)?;
    }
    Ok(types)
}

fn start(alloc: Global) -> Result<Code, AllocError> {
    let code = vec![in alloc;
        Instr::Const(Value::I32(16)),
        Instr::Const(Value::I32(2)),
        Instr::Call(0),
        Instr::Drop,
    ]?;
    body(alloc, &[ValueType::I64, ValueType::I64], code)
}

// A guest that hands two bytes to a function that it imports.
fn small_guest(alloc: Global) -> Result<Module, AllocError> {
    let types = types(alloc)?;
    let imports = vec![in alloc; import_function(alloc, "env", "write", 1)?]?;
    let functions = vec![in alloc; (0, start(alloc)?)]?;
    let segments = vec![in alloc; data(alloc, 16, b"hi")?]?;
    guest(alloc, types, imports, functions, segments)
}

// The sections of that guest before its exports, the exports of its memory and its start, or of a run, and the rest.
const BEFORE: &str =
    "01 0a 0260000060027f7f017f 02 0d 0103656e760577726974650001 03 02 0100 05 03 010001";

const BOTH: &str = "07 13 02 066d656d6f72790200 065f73746172740001";

const RUN: &str = "07 07 01 0372756e0001";

const AFTER: &str = "0a 0d 01 0b 01027e 4110 4102 1000 1a 0b 0b 08 01 00 41100b 026869";

#[test]
fn a_guest(rt: HostRuntime) -> Result<(), Fail> {
    let mut module = small_guest(rt.alloc())?;
    for exports in [BOTH, RUN] {
        let sections = format!(in rt.alloc(); "{BEFORE}{exports}{AFTER}")?;
        let wanted = bytes_of(&rt, HEAD, sections.as_str())?;
        assert!(rt; write_module(rt.alloc(), &module)? == wanted, "{exports}");
        assert!(rt; rewritten(&rt, &wanted)? == wanted, "{exports}");
        let run = vec![in rt.alloc(); export_function(rt.alloc(), "run", 1)?]?;
        module.exports = Items::of(run);
    }
    Ok(())
}
