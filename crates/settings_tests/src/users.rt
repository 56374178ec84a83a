//! Files as users have them: all tables that the public documentation of `fastly.toml` shows, most of them passed over.

use crate::reading::read;
use std::test::Fail;

/// A service in Rust with what its first deployment sets up.
const SETUP: &str = r#"
# This file describes a Fastly Compute package.
authors = ["dev@shop.example"]
cloned_from = "https://github.com/fastly/compute-starter-kit-rust-default"
description = "A shop's front"
language = "rust"
manifest_version = 3
name = "shop-front"
service_id = "SU1Z0isxPaozGVKXdv0eY"

[scripts]
  build = "cargo build --bin shop --release --target wasm32-wasi --color always"
  env_vars = ["RUST_LOG=info", "MODE=release"]
  env_file = ".env"
  post_init = "npm install"
  post_build = "./sign.sh"

[setup]
  [setup.backends]
    [setup.backends.origin]
      address = "origin.shop.example"
      port = 443
      description = "Where the shop is"
  [setup.dictionaries]
    [setup.dictionaries.redirects]
      description = "Old paths"
      [setup.dictionaries.redirects.items]
        [setup.dictionaries.redirects.items."/old"]
          value = "/new"
          description = "moved in spring"
  [setup.config_stores.flags]
    description = "Switches"
    [setup.config_stores.flags.items.dark]
      value = "off"
  [setup.kv_stores.pages]
    [setup.kv_stores.pages.items.home]
      file = "./home.html"
  [setup.secret_stores.keys.entries.signing]
    description = "The signing key"
  [setup.log_endpoints.requests]
    provider = "bigquery"
"#;

/// A service that runs locally, with each table that a local server may have.
const LOCAL: &str = r#"
manifest_version = 2
name = "api"
language = "other"

[scripts]
build = "make"

[local_server]
viceroy_version = "0.9.3"
pushpin = { enable = false, proxy_port = 7677 }

  [local_server.backends]
    [local_server.backends.origin]
      url = "https://origin.api.example:443/"
      override_host = "api.example"
      cert_host = "origin.api.example"
      use_sni = true
      grpc = false
      ca_certificate.value = """
-----BEGIN CERTIFICATE-----
MIIB
-----END CERTIFICATE-----
"""
    [local_server.backends."127.0.0.1"]
      url = "http://127.0.0.1:7676"
    [local_server.backends.mutual]
      url = "https://mutual.example:8443/a/b?c=d"
      [local_server.backends.mutual.client_certificate]
        certificate_file = "client.crt"
        key_file = "client.key"

  [local_server.dictionaries.strings]
    format = "inline-toml"
    [local_server.dictionaries.strings.contents]
      "hello world" = "hallo welt"
      empty = ""
  [local_server.dictionaries.redirects]
    file = "texts.json"
    format = "json"

  [local_server.config_stores.flags]
    format = "inline-toml"
    contents.dark = "on"

  [[local_server.kv_stores.pages]]
    key = "home"
    file = "bytes.bin"
    metadata = "text/html"
  [[local_server.kv_stores.pages]]
    key = "about"
    data = '''<p>about</p>'''
  [local_server.object_stores]
    old = [{ key = "a", path = "a.txt" }]

  [local_server.secret_stores]
    keys = [
      { key = "signing", data = "secret" },
      { key = "from-file", file = "bytes.bin" },
    ]

  [local_server.geolocation]
    format = "inline-toml"
    use_default_loopback = false
    [local_server.geolocation.addresses."127.0.0.1"]
      as_name = "Fastly, Inc"
      as_number = 54113
      latitude = 37.77869
      metro_code = 0
      utc_offset = -700

  [local_server.device_detection]
    format = "inline-toml"
    [local_server.device_detection.user_agents."curl/8.0".device]
      name = "curl"
      is_bot = true

  [local_server.acls]
    blocked = "acl.json"
    inline.entries = [{ op = "create", prefix = "1.2.3.0/24", action = "BLOCK" }]
"#;

/// The least that the tools ask for.
const LEAST: &str = "manifest_version = 3\r\nname = \"a\"\r\nlanguage = \"go\"\r\n";

#[test]
fn files_as_users_have_them_are_read(rt: HostRuntime) -> Result<(), Fail> {
    let alloc = rt.alloc();
    let least = read(alloc, LEAST.as_bytes(), Vec::new(alloc))?;
    assert!(rt; least.backends.is_empty() && least.kv.is_empty());
    let setup = read(alloc, SETUP.as_bytes(), Vec::new(alloc))?;
    assert!(rt; setup.backends.is_empty() && setup.configs.is_empty());
    let local = read(alloc, LOCAL.as_bytes(), Vec::new(alloc))?;
    assert_eq!(rt; (local.backends.len(), local.dictionaries.len()), (3, 2));
    assert_eq!(rt;
        (local.configs.len(), local.secrets.len(), local.kv.len()),
        (1, 1, 1)
    );
    Ok(())
}
