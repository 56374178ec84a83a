//! The line of a load.

use crate::commands::exit_of;
use edge_top::Exit;
use std::test::Fail;

/// What `bench/load.py` makes of the number 1.
const LINE: &[u8] = b"load 1 steps 50000 entries 11000 got 2000 bytes 123904\n";

#[test]
fn a_load_is_told(rt: HostRuntime) -> Result<(), Fail> {
    let (exit, line) = exit_of(&rt, "load 1", b"", "")?;
    assert!(rt; exit == Exit::Ok && line.as_slice() == LINE);
    Ok(())
}
