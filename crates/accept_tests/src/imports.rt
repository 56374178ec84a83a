//! Imports that are found and refused, with their texts.

use edge_imports::{Hostcall, LinkRefusal, call_named, links_of};
use std::alloc::AllocError;
use std::test::Fail;
use wasm_types::{
    Export, ExportKind, FuncType, Import, ImportKind, Items, Limits, Module, ValueType,
};

fn bytes(rt: &HostRuntime, text: &str) -> Result<Items<u8>, AllocError> {
    Ok(Items::of(text.as_bytes().to_vec(rt.alloc())?))
}

fn function(
    rt: &HostRuntime,
    params: &[ValueType],
    gives: Option<ValueType>,
) -> Result<FuncType, AllocError> {
    Ok(FuncType {
        params: Items::of(params.to_vec(rt.alloc())?),
        result: gives,
    })
}

/// The types by which the tests name functions.
const PLAIN: u32 = 0;

const WORD: u32 = 1;

const LONG: u32 = 2;

const SILENT: u32 = 3;

/// A module with these imports and exports, and after the imports a function of type PLAIN and one of WORD.
fn module(
    rt: &HostRuntime,
    imports: &[(&str, &str, ImportKind)],
    exports: &[(&str, ExportKind, u32)],
) -> Result<Module, AllocError> {
    let alloc = rt.alloc();
    let mut imported = Vec::new(alloc);
    for (from, name, kind) in imports {
        imported.push(Import {
            module: bytes(rt, from)?,
            name: bytes(rt, name)?,
            kind: *kind,
        })?;
    }
    let mut exported = Vec::new(alloc);
    for (name, kind, index) in exports {
        exported.push(Export {
            name: bytes(rt, name)?,
            kind: *kind,
            index: *index,
        })?;
    }
    let mut types = Vec::new(alloc);
    types.push(function(rt, &[], None)?)?;
    types.push(function(rt, &[ValueType::I32], Some(ValueType::I32))?)?;
    types.push(function(rt, &[ValueType::I64], Some(ValueType::I32))?)?;
    types.push(function(rt, &[ValueType::I32], None)?)?;
    Ok(Module {
        types: Items::of(types),
        imports: Items::of(imported),
        functions: Items::of([PLAIN, WORD].to_vec(alloc)?),
        tables: Items::of(Vec::new(alloc)),
        memories: Items::of(Vec::new(alloc)),
        globals: Items::of(Vec::new(alloc)),
        exports: Items::of(exported),
        start: None,
        elements: Items::of(Vec::new(alloc)),
        code: Items::of(Vec::new(alloc)),
        segments: Items::of(Vec::new(alloc)),
    })
}

const BODY: &str = "fastly_http_body";

const PAGES: Limits = Limits {
    least: 1,
    most: None,
};

/// Imports, exports, and the refusal.
const REFUSED: [(
    &[(&str, &str, ImportKind)],
    &[(&str, ExportKind, u32)],
    LinkRefusal,
); 10] = [
    (&[], &[], LinkRefusal::NoStart),
    (
        &[],
        &[("_start", ExportKind::Function, 1)],
        LinkRefusal::NoStart,
    ),
    (
        &[],
        &[("start", ExportKind::Function, 0)],
        LinkRefusal::NoStart,
    ),
    (
        &[],
        &[("_start", ExportKind::Global, 0)],
        LinkRefusal::NoStart,
    ),
    (
        &[("fastly_http_bodies", "new", ImportKind::Function(WORD))],
        &[],
        LinkRefusal::UnknownImport(0),
    ),
    (
        &[
            (BODY, "new", ImportKind::Function(LONG)),
            (BODY, "news", ImportKind::Function(WORD)),
        ],
        &[],
        LinkRefusal::UnknownImport(1),
    ),
    (
        &[(BODY, "new", ImportKind::Memory(PAGES))],
        &[],
        LinkRefusal::UnknownImport(0),
    ),
    (
        &[
            (BODY, "new", ImportKind::Function(WORD)),
            (BODY, "close", ImportKind::Function(LONG)),
            (BODY, "abandon", ImportKind::Function(SILENT)),
        ],
        &[("_start", ExportKind::Function, 3)],
        LinkRefusal::WrongType(1),
    ),
    (
        &[(BODY, "new", ImportKind::Function(WORD))],
        &[("_start", ExportKind::Function, 0)],
        LinkRefusal::NoStart,
    ),
    (
        &[(BODY, "new", ImportKind::Function(WORD))],
        &[
            ("_start", ExportKind::Function, 1),
            ("memory", ExportKind::Table, 0),
        ],
        LinkRefusal::NoMemory,
    ),
];

#[test]
fn the_first_refusal_is_told(rt: HostRuntime) -> Result<(), Fail> {
    for (imports, exports, refusal) in REFUSED {
        let module = module(&rt, imports, exports)?;
        assert_eq!(rt; links_of(rt.alloc(), &module).err(), Some(refusal));
    }
    Ok(())
}

#[test]
fn a_module_is_linked(rt: HostRuntime) -> Result<(), Fail> {
    let imports = [
        (
            "wasi_snapshot_preview1",
            "proc_exit",
            ImportKind::Function(SILENT),
        ),
        ("fastly_abi", "init", ImportKind::Function(LONG)),
        (BODY, "new", ImportKind::Function(WORD)),
    ];
    let exports = [
        ("_start", ExportKind::Function, 3),
        ("memory", ExportKind::Memory, 0),
    ];
    let module = module(&rt, &imports, &exports)?;
    let links = links_of(rt.alloc(), &module).map_err(|_| "not linked")?;
    assert_eq!(rt; links.start, 3);
    let calls = [Hostcall::WasiProcExit, Hostcall::AbiInit, Hostcall::BodyNew];
    assert_eq!(rt; links.calls.items(), calls.as_slice());
    Ok(())
}

/// Modules, names and numbers of parameters as the public interface has them.
const ROWS: [(&str, &str, Hostcall, usize); 8] = [
    ("fastly_http_body", "write", Hostcall::BodyWrite, 5),
    (
        "fastly_http_req",
        "header_values_get",
        Hostcall::RequestHeaderValuesGet,
        8,
    ),
    (
        "fastly_http_resp",
        "send_downstream",
        Hostcall::ResponseSendDownstream,
        3,
    ),
    ("fastly_dictionary", "get", Hostcall::DictionaryGet, 6),
    (
        "fastly_cache",
        "transaction_lookup",
        Hostcall::CacheTransactionLookup,
        5,
    ),
    ("fastly_cache", "close_busy", Hostcall::CacheCloseBusy, 1),
    (
        "fastly_purge",
        "purge_surrogate_key",
        Hostcall::PurgeSurrogateKey,
        4,
    ),
    (
        "wasi_snapshot_preview1",
        "clock_time_get",
        Hostcall::WasiClockTimeGet,
        3,
    ),
];

#[test]
fn rows_are_found(rt: HostRuntime) -> Result<(), Fail> {
    for (from, name, call, params) in ROWS {
        let found = call_named(from.as_bytes(), name.as_bytes());
        assert_eq!(rt; found, Some(call));
        assert_eq!(rt; call.row().params.len(), params);
    }
    assert_eq!(rt; call_named(b"fastly_http_req", b"send"), None);
    Ok(())
}
