//! Tables of labels, compared.

use std::test::Fail;
use wasm_types::*;

#[test]
fn tables_of_labels(rt: HostRuntime) -> Result<(), Fail> {
    let labels = Items::of([1u32, 2].to_vec(rt.alloc())?);
    let table = Instr::BrTable { labels, other: 3 };
    assert!(rt; table != Instr::Br(3));
    for (last, other, same) in [(2u32, 3u32, true), (3, 3, false), (2, 4, false)] {
        let labels = Items::of([1u32, last].to_vec(rt.alloc())?);
        assert_eq!(rt; labels.items(), [1, last].as_slice());
        assert!(rt; (table == Instr::BrTable { labels, other }) == same);
    }
    Ok(())
}
