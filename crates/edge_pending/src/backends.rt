//! The backends of the settings.
ghost use Rattle.std.specs.Prelude.{◌≡◌, Ok, Err, IfOk, IfErr, IsTrue, option_copied};
ghost use Rattle.edge_pending.specs.Backends as spec;

use cache_types::Octets;
use edge_abi::{Refusal, Status, unless};
use fastly_toml::{Backend, Settings};
use std::str;

/// The bytes 21 to 7E alone.
fn is_address(bytes: &[u8]) -> bool
    ensures { result ≡ spec.is_address bytes.now }
{
    bytes.iter().all(|byte| 33 <= *byte && *byte <= 126)
}

/// An address as a text.
pub fn text_of(address: &Octets) -> &str
    requires { IsTrue (spec.is_address address.now) }
    ensures { result.now ≡ address.now }
{
    match str::from_utf8(address.bytes()) {
        Ok(text) => text,
        Err(_) => unreachable!(),
    }
}

/// The backend of a name, where its address is one.
fn backend_named<'a>(settings: &'a Settings, name: &Octets) -> Option<&'a Backend>
    ensures { option_copied result ≡ spec.backend_named settings.now name.now }
{
    match settings.backends.get(name) {
        Some(backend) => {
            if is_address(backend.address.bytes()) {
                Some(backend)
            } else {
                None
            }
        }
        None => None,
    }
}

/// The address of the backend of a name: inval where there is none, unsupported where it is asked by HTTPS.
pub fn address_for<'a>(settings: &'a Settings, name: &Octets) -> Result<&'a Octets, Refusal>
    ensures ok { IfOk result (λ address. spec.address_for settings.now name.now ≡ Ok address.now) }
    ensures address { IfOk result (λ address. IsTrue (spec.is_address address.now)) }
    ensures err { IfErr result (λ refusal. spec.address_for settings.now name.now ≡ Err refusal) }
{
    match backend_named(settings, name) {
        Some(backend) => {
            unless(!backend.https, Status::Unsupported)?;
            Ok(&backend.address)
        }
        None => Err(Refusal::Told(Status::Inval)),
    }
}
