//! The maps that are made.

use crate::reading::read;
use cache_types::Octets;
use fastly_toml::{Backend, Texts};
use std::alloc::{AllocError, Global};
use std::collections::BTreeMap;
use std::test::Fail;

fn plain(octets: &Octets) -> &str {
    str::from_utf8(octets.bytes()).unwrap_or("?")
}

/// The backends, each with its address.
fn of_backends(alloc: Global, backends: &BTreeMap<Octets, Backend>) -> Result<String, AllocError> {
    let mut text = String::new(alloc);
    for (name, backend) in backends.iter() {
        let line = format!(in alloc;
            "{} {} {};",
            plain(name),
            plain(&backend.address),
            backend.https
        )?;
        text.push_str(line.as_str())?;
    }
    Ok(text)
}

/// The stores, each with its texts.
fn of_stores(alloc: Global, stores: &BTreeMap<Octets, Texts>) -> Result<String, AllocError> {
    let mut text = String::new(alloc);
    for (name, texts) in stores.iter() {
        text.push_str(plain(name))?;
        for (key, value) in texts.iter() {
            let line = format!(in alloc; " {}={}", plain(key), plain(value))?;
            text.push_str(line.as_str())?;
        }
        text.push_str(";")?;
    }
    Ok(text)
}

const TEXT: &str = r#"
[local_server.backends.web]
url = "http://a.example/p"
[local_server.backends."an api"]
url = "https://[::1]:8443"
[local_server.dictionaries.d]
format = "json"
file = "texts.json"
[local_server.config_stores]
c = { format = "inline-toml", contents = { z = "1", y = "2" } }
b = { format = "json", file = "twice.json" }
[local_server.secret_stores]
s = [{ key = "k", file = "bytes.bin" }, { key = "j", data = "d" }]
[[local_server.kv_stores.v]]
key = "1"
file = "none.json"
[[local_server.kv_stores.u]]
key = "2"
file = "empty.json"
"#;

#[test]
fn the_maps_have_what_stands_there(rt: HostRuntime) -> Result<(), Fail> {
    let alloc = rt.alloc();
    let settings = read(alloc, TEXT.as_bytes(), Vec::new(alloc))?;
    let told = of_backends(alloc, &settings.backends)?;
    assert_eq!(rt;
        told.as_str(),
        "an api [::1]:8443 true;web a.example:80 false;"
    );
    let told = of_stores(alloc, &settings.dictionaries)?;
    assert_eq!(rt; told.as_str(), "d a=1 b=2;");
    let told = of_stores(alloc, &settings.configs)?;
    assert_eq!(rt; told.as_str(), "b a=2;c y=2 z=1;");
    let told = of_stores(alloc, &settings.secrets)?;
    assert_eq!(rt; told.as_str(), "s j=d k=some bytes;");
    let told = of_stores(alloc, &settings.kv)?;
    assert_eq!(rt; told.as_str(), "u 2=;v 1={};");
    Ok(())
}

/// Each of the six reads of the text failing in turn.
#[test]
fn a_read_that_fails_ends_the_reading(rt: HostRuntime) -> Result<(), Fail> {
    let alloc = rt.alloc();
    for number in 1..8 {
        let mut fails = Vec::new(alloc);
        fails.push(number)?;
        let told = match read(alloc, TEXT.as_bytes(), fails) {
            Ok(_) => 0,
            Err(_) => number,
        };
        assert_eq!(rt; told, if number < 6 { number } else { 0 });
    }
    Ok(())
}
