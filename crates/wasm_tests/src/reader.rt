//! Modules whose bytes or faults come from outside the reader.

use crate::told::bytes_of;
use std::test::Fail;
use wasm_reader::read_module;

/// One type, one function, its export and its code: 36 bytes.
const SMALL: &[u8; 36] =
    b"\0asm\x01\0\0\0\x01\x04\x01\x60\0\0\x03\x02\x01\0\x07\x0a\x01\x06_start\0\0\x0a\x04\x01\x02\0\x0b";

/// A module of each kind of section and of each instruction, as wat2wasm of wabt 1.0.32 wrote it.
const EVERY: &str = "\
0061736d01000000010a0260027f7e017f600000021e04016d01660001016d01740170010102016d016e020001016d01\
67037e000303020001040501700103040504010105060607017f0141c0000b0711040166000101740100016e02000167\
03010801020908010041010b0201020abd0102b70102027f017e000102400b037f0b047e0105010b0c000d010e020001\
020f10011100001a1b200021012202230024012802ac022903002c00002d00002e01002f010030000031000032010033\
01003402003502003602003703003a00003b01003c00003d01003e02003f004000417f428080808080808080807f4546\
4748494a4b4c4d4e4f505152535455565758595a6768696a6b6c6d6e6f707172737475767778797a7b7c7d7e7f808182\
838485868788898aa7acad0b02000b0b08010041020b026869000e046e616d65020703000001000200";

/// What that module is.
const EVERY_TEXT: &str =
    "Module { types: Items { items: [FuncType { params: Items { items: [I32, I64] }, result: Some(I32) }, FuncType { params: Items { items: [] }, result: None }] }, imports: Items { items: [Import { module: Items { items: [109] }, name: Items { items: [102] }, kind: Function(1) }, Import { module: Items { items: [109] }, name: Items { items: [116] }, kind: Table(Limits { least: 1, most: Some(2) }) }, Import { module: Items { items: [109] }, name: Items { items: [110] }, kind: Memory(Limits { least: 1, most: None }) }, Import { module: Items { items: [109] }, name: Items { items: [103] }, kind: Global(GlobalType { kind: I64, mutable: false }) }] }, functions: Items { items: [0, 1] }, tables: Items { items: [Limits { least: 3, most: Some(4) }] }, memories: Items { items: [Limits { least: 5, most: Some(6) }] }, globals: Items { items: [GlobalItem { kind: GlobalType { kind: I32, mutable: true }, start: Items { items: [Const(I32(64)), End] } }] }, exports: Items { items: [Export { name: Items { items: [102] }, kind: Function, index: 1 }, Export { name: Items { items: [116] }, kind: Table, index: 0 }, Export { name: Items { items: [110] }, kind: Memory, index: 0 }, Export { name: Items { items: [103] }, kind: Global, index: 1 }] }, start: Some(2), elements: Items { items: [Element { table: 0, offset: Items { items: [Const(I32(1)), End] }, functions: Items { items: [1, 2] } }] }, code: Items { items: [Code { locals: Locals { groups: [Group { count: 2, kind: I32 }, Group { count: 1, kind: I64 }] }, body: Items { items: [Unreachable, Nop, Block(None), End, Loop(Some(I32)), End, If(Some(I64)), Nop, Else, Nop, End, Br(0), BrIf(1), BrTable { labels: Items { items: [0, 1] }, other: 2 }, Return, Call(1), CallIndirect(0), Drop, Select, LocalGet(0), LocalSet(1), LocalTee(2), GlobalGet(0), GlobalSet(1), Load { kind: I32, align: 2, offset: 300 }, Load { kind: I64, align: 3, offset: 0 }, Load { kind: I32From8S, align: 0, offset: 0 }, Load { kind: I32From8U, align: 0, offset: 0 }, Load { kind: I32From16S, align: 1, offset: 0 }, Load { kind: I32From16U, align: 1, offset: 0 }, Load { kind: I64From8S, align: 0, offset: 0 }, Load { kind: I64From8U, align: 0, offset: 0 }, Load { kind: I64From16S, align: 1, offset: 0 }, Load { kind: I64From16U, align: 1, offset: 0 }, Load { kind: I64From32S, align: 2, offset: 0 }, Load { kind: I64From32U, align: 2, offset: 0 }, Store { kind: I32, align: 2, offset: 0 }, Store { kind: I64, align: 3, offset: 0 }, Store { kind: I32To8, align: 0, offset: 0 }, Store { kind: I32To16, align: 1, offset: 0 }, Store { kind: I64To8, align: 0, offset: 0 }, Store { kind: I64To16, align: 1, offset: 0 }, Store { kind: I64To32, align: 2, offset: 0 }, MemorySize, MemoryGrow, Const(I32(4294967295)), Const(I64(9223372036854775808)), I32Test(Eqz), I32Compare(Eq), I32Compare(Ne), I32Compare(LtS), I32Compare(LtU), I32Compare(GtS), I32Compare(GtU), I32Compare(LeS), I32Compare(LeU), I32Compare(GeS), I32Compare(GeU), I64Test(Eqz), I64Compare(Eq), I64Compare(Ne), I64Compare(LtS), I64Compare(LtU), I64Compare(GtS), I64Compare(GtU), I64Compare(LeS), I64Compare(LeU), I64Compare(GeS), I64Compare(GeU), I32Unary(Clz), I32Unary(Ctz), I32Unary(Popcnt), I32Binary(Add), I32Binary(Sub), I32Binary(Mul), I32Binary(DivS), I32Binary(DivU), I32Binary(RemS), I32Binary(RemU), I32Binary(And), I32Binary(Or), I32Binary(Xor), I32Binary(Shl), I32Binary(ShrS), I32Binary(ShrU), I32Binary(Rotl), I32Binary(Rotr), I64Unary(Clz), I64Unary(Ctz), I64Unary(Popcnt), I64Binary(Add), I64Binary(Sub), I64Binary(Mul), I64Binary(DivS), I64Binary(DivU), I64Binary(RemS), I64Binary(RemU), I64Binary(And), I64Binary(Or), I64Binary(Xor), I64Binary(Shl), I64Binary(ShrS), I64Binary(ShrU), I64Binary(Rotl), I64Binary(Rotr), Convert(WrapI64), Convert(ExtendI32S), Convert(ExtendI32U), End] } }, Code { locals: Locals { groups: [] }, body: Items { items: [End] } }] }, segments: Items { items: [Segment { memory: 0, offset: Items { items: [Const(I32(2)), End] }, bytes: Items { items: [104, 105] } }] } }";

/// The small module with other bytes in place of those from an index on, and what is told of it; behind that a note.
const ROWS: &str = "\
0;0061736e0100;BadMagic at 0;
4;02000000;BadVersion at 4;
14;03030180000a040102000b;read;a number of two bytes where one would do
30;0a0e010c004400000000000000001a0b;FloatUsed at 35;
36;00;Truncated at 37;
30;0a050101000b;SectionSize at 35;a section past the end of the bytes, with a body that ends before
30;0a030100;Truncated at 34;with a body that ends there
30;0a0501020001;Truncated at 36;and past it
30;0a050102000b;Truncated at 36;
30;0a0501030001;Truncated at 36;
30;0a080102000b0b;SectionSize at 36;
30;0a0401020001;SectionSize at 36;a section that ends with the bytes, with a body that ends there
30;0a040103000b;SectionSize at 36;and past it
30;0a050104000b0b;SectionSize at 36;
30;0a0401040001010b;SectionSize at 36;a body past its section, where the bytes go on
30;0a030102000b;SectionSize at 35;
8;0108ffffffff0f600000;TooLarge at 10;
8;0108ffffffff1f600000;BadLeb at 10;
8;0105016000017d;FloatUsed at 14;
8;0106016000027f7f;TooLarge at 13;
14;0104;SectionOrder at 14;
14;0c;SectionOrder at 14;
8;000301ff00;BadName at 11;
8;00040161ffff;read;
8;050401008110;TooLarge at 12;
8;0506010101818004;TooLarge at 13;
8;0503010200;BadForm at 11;
30;0a05010300050b;BadForm at 35;
30;0a05010300060b;BadOpcode at 35;
30;0a0701050181207f0b;TooLarge at 35;4,097 locals
30;0a0100;CountMismatch at 33;no bodies for one function";

/// The kind of the fault and its place, or that there is none.
fn told(rt: &HostRuntime, bytes: &[u8]) -> Result<String, Fail> {
    match read_module(rt.alloc(), bytes) {
        Ok(_) => Ok(String::from_str(rt.alloc(), "read")?),
        Err(fault) => Ok(format!(in rt.alloc(); "{:?} at {}", fault.kind, fault.place)?),
    }
}

#[test]
fn faults_and_their_places(rt: HostRuntime) -> Result<(), Fail> {
    for row in ROWS.split('\n') {
        let (from, rest) = row.split_once(';').ok_or("no index")?;
        let (digits, rest) = rest.split_once(';').ok_or("no bytes")?;
        let (wanted, _) = rest.split_once(';').ok_or("no text")?;
        let from = from.parse::<usize>().ok().ok_or("no index")?;
        let bytes = bytes_of(&rt, SMALL.split_at(from.min(36)).0, digits)?;
        let found = told(&rt, &bytes)?;
        assert!(rt; found.as_str() == wanted, "{row}: {found}");
    }
    for len in 0..37usize {
        let found = told(&rt, &SMALL[..len])?;
        let wanted = match len {
            8 | 14 | 36 => String::from_str(rt.alloc(), "read")?,
            18 | 30 => format!(in rt.alloc(); "CountMismatch at {len}")?,
            _ => format!(in rt.alloc(); "Truncated at {len}")?,
        };
        assert!(rt; found == wanted, "cut to {len}: {found}");
    }
    Ok(())
}

#[test]
fn each_section_and_instruction(rt: HostRuntime) -> Result<(), Fail> {
    let bytes = bytes_of(&rt, b"", EVERY)?;
    let found = read_module(rt.alloc(), &bytes).ok().ok_or("a fault")?;
    let text = format!(in rt.alloc(); "{found:?}")?;
    assert!(rt; text.as_str() == EVERY_TEXT);
    Ok(())
}
