//! Which kind is told of a text.

use crate::reading::read;
use std::test::Fail;

/// What is told, and the text, in which `;` stands for a line feed.
const ROWS: &str = r#"ok|
ok|name = "a"
ok|[local_server]
ok|[local_server.backends]
ok|[local_server.backends.a];url = "http://a"
ok|[local_server.backends.a];url = "https://a"
ok|[local_server.backends.a];url = "http://a:1"
ok|[local_server.backends.a];url = "http://a:65535/p?q#f"
ok|[local_server.backends.a];url = "http://[::1]:8080/"
ok|[local_server.backends.a];url = "http://a/";override_host = 5
ok|local_server.backends.a.url = "http://!$&'()*+,-.~"
ok|[local_server];geolocation = 5
ok|[local_server.dictionaries.d];format = "inline-toml";[local_server.dictionaries.d.contents]
ok|[local_server.dictionaries.d];format = "inline-toml";contents = { a = "1", "b c" = "" }
ok|[local_server.dictionaries.d];format = "inline-toml";contents = {};file = 5
ok|[local_server.config_stores.d];format = "json";file = "texts.json";contents = 5
ok|[local_server.config_stores.d];format = "json";file = "none.json"
ok|[local_server.config_stores.d];format = "json";file = "twice.json"
ok|[local_server];secret_stores.s = []
ok|[[local_server.secret_stores.s]];key = "a";data = ""
ok|[[local_server.kv_stores.s]];key = "";file = "bytes.bin";metadata = 5
ok|[[local_server.kv_stores.s]];key = "a";data = "1";[[local_server.kv_stores.s]];key = "b";data = "1"
ok|[[local_server.kv_stores.s]];key = "a";data = "1";[[local_server.kv_stores.t]];key = "a";data = "1"
settings: not-toml|a
settings: not-toml|a = 1;a = 2
settings: not-toml|[local_server.backends.a];url = "http://a";[local_server.backends.a]
settings: not-toml|[local_server.backends.a];url = "http://a
settings: not-toml|a = [;[local_server.backends.a]
settings: missing-url|[local_server.backends.a]
settings: missing-url|[local_server.backends];a = 5
settings: missing-url|[local_server.backends];a = "http://a"
settings: missing-url|[local_server.backends.a];URL = "http://a"
settings: missing-url|[local_server.backends.a];url = "a";[local_server.backends.b]
settings: missing-url|local_server.dictionaries = 5;[local_server.backends.b]
settings: bad-url|[local_server.backends.a];url = 5
settings: bad-url|[local_server.backends.a];url = ""
settings: bad-url|[local_server.backends.a];url = "a"
settings: bad-url|[local_server.backends.a];url = "http:/a"
settings: bad-url|[local_server.backends.a];url = "http://"
settings: bad-url|[local_server.backends.a];url = "http:///p"
settings: bad-url|[local_server.backends.a];url = "HTTP://a"
settings: bad-url|[local_server.backends.a];url = "ftp://a"
settings: bad-url|[local_server.backends.a];url = "http://a b"
settings: bad-url|[local_server.backends.a];url = "http://a?q"
settings: bad-url|[local_server.backends.a];url = "http://u@a"
settings: bad-url|[local_server.backends.a];url = "http://a:"
settings: bad-url|[local_server.backends.a];url = "http://a:0"
settings: bad-url|[local_server.backends.a];url = "http://a:080"
settings: bad-url|[local_server.backends.a];url = "http://a:65536"
settings: bad-url|[local_server.backends.a];url = "http://a:+1"
settings: bad-url|[local_server.backends.a];url = "http://a:1:2"
settings: bad-url|[local_server.backends.a];url = "http://:1"
settings: bad-url|[local_server.backends.a];url = "http://[]"
settings: bad-url|[local_server.backends.a];url = "http://[::1"
settings: bad-url|[local_server.backends.a];url = "http://[::1]1"
settings: bad-url|[local_server.backends.a];url = "http://::1"
settings: bad-url|[local_server.backends.a];url = "http://a/b c"
settings: bad-url|[local_server.backends.a];url = "http://ä"
settings: bad-url|[local_server.backends.a];url = "";[local_server.dictionaries.d]
settings: bad-store|local_server = 5
settings: bad-store|local_server = []
settings: bad-store|[local_server];backends = 5
settings: bad-store|[[local_server.backends]];url = "a"
settings: bad-store|[local_server];kv_stores = []
settings: bad-store|[local_server];secret_stores = "a"
settings: bad-store|[local_server.dictionaries];d = 5
settings: bad-store|[local_server.dictionaries.d]
settings: bad-store|[local_server.dictionaries.d];format = "inline-toml"
settings: bad-store|[local_server.dictionaries.d];format = "inline-toml";contents = []
settings: bad-store|[local_server.dictionaries.d];format = "inline-toml";contents = { a = 1 }
settings: bad-store|[local_server.dictionaries.d];format = "inline";contents = {}
settings: bad-store|[local_server.dictionaries.d];contents = {}
settings: bad-store|[local_server.config_stores.d];format = "json"
settings: bad-store|[local_server.config_stores.d];format = "json";file = 5
settings: bad-store|[local_server.config_stores.d];format = 5;file = "texts.json"
settings: bad-store|[local_server.secret_stores.s];key = "a";data = "1"
settings: bad-store|[local_server];secret_stores.s = ["a"]
settings: bad-store|[[local_server.secret_stores.s]];data = "1"
settings: bad-store|[[local_server.secret_stores.s]];key = 5;data = "1"
settings: bad-store|[[local_server.secret_stores.s]];key = "a"
settings: bad-store|[[local_server.secret_stores.s]];key = "a";env = "A"
settings: bad-store|[[local_server.secret_stores.s]];key = "a";data = "1";file = "bytes.bin"
settings: bad-store|[[local_server.kv_stores.s]];key = "a";data = 1
settings: bad-store|[[local_server.kv_stores.s]];key = "a";file = []
settings: bad-store|[[local_server.kv_stores.s]];key = "a";data = "1";[[local_server.kv_stores.s]];key = "a";file = "bytes.bin"
settings: bad-store|[local_server.dictionaries.d];format = "json";file = "nobody.json";[local_server.kv_stores];s = 5
settings: bad-file|[local_server.config_stores.d];format = "json";file = "number.json"
settings: bad-file|[local_server.config_stores.d];format = "json";file = "list.json"
settings: bad-file|[local_server.config_stores.d];format = "json";file = "text.json"
settings: bad-file|[local_server.config_stores.d];format = "json";file = "deep.json"
settings: bad-file|[local_server.config_stores.d];format = "json";file = "null.json"
settings: bad-file|[local_server.config_stores.d];format = "json";file = "cut.json"
settings: bad-file|[local_server.config_stores.d];format = "json";file = "more.json"
settings: bad-file|[local_server.dictionaries.d];format = "json";file = "empty.json"
settings: bad-file|[local_server.dictionaries.d];format = "json";file = "bytes.bin";[[local_server.kv_stores.s]];key = "a";file = "bytes.bin"
read fault|[local_server.dictionaries.d];format = "json";file = "nobody.json"
read fault|[local_server.dictionaries.d];format = "json";file = "cut.json";[[local_server.kv_stores.s]];key = "a";file = "nobody"
read fault|[[local_server.secret_stores.s]];key = "a";file = """#;

#[test]
fn the_first_kind_is_told(rt: HostRuntime) -> Result<(), Fail> {
    let alloc = rt.alloc();
    for row in ROWS.split('\n') {
        let (wanted, text) = row.split_once('|').ok_or("no kind")?;
        let text = text.replace(alloc, ";", "\n")?;
        let told = match read(alloc, text.as_bytes(), Vec::new(alloc)) {
            Ok(_) => String::from_str(alloc, "ok")?,
            Err(fault) => format!(in alloc; "{fault}")?,
        };
        assert!(rt; told.as_str() == wanted, "{row}: {told}");
    }
    Ok(())
}
