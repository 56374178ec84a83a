//! One call, which the tests share.

use edge_outside::{MemFiles, NamedFile};
use fastly_toml::{Settings, SettingsFault, read_settings};
use std::alloc::{AllocError, Global};

/// The files that settings may name, each with its bytes.
const FILES: &str = "\
texts.json={\"b\":\"2\",\"a\":\"1\"}
twice.json={\"a\":\"1\",\"a\":\"2\"}
none.json={}
number.json={\"a\":1}
list.json=[\"a\"]
text.json=\"a\"
deep.json={\"a\":{\"b\":\"c\"}}
null.json={\"a\":null}
cut.json={\"a\":\"1\"
more.json={\"a\":\"1\"} {}
empty.json=
bytes.bin=some bytes";

fn files(alloc: Global, fails: Vec<u64>) -> Result<MemFiles, AllocError> {
    let mut named = Vec::new(alloc);
    for row in FILES.split('\n') {
        if let Some((name, bytes)) = row.split_once('=') {
            let name = String::from_str(alloc, name)?;
            let bytes = bytes.as_bytes().to_vec(alloc)?;
            named.push(NamedFile { name, bytes })?;
        }
    }
    Ok(MemFiles::new(alloc, named, fails))
}

/// What is read of a text, where the reads with the numbers in `fails` fail.
pub fn read(alloc: Global, text: &[u8], fails: Vec<u64>) -> Result<Settings, SettingsFault> {
    let mut files = files(alloc, fails)?;
    read_settings(alloc, text, &mut files)
}
