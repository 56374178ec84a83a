//! The url of a backend.
ghost use Rattle.std.specs.Prelude.{◌≡◌, ◌≤◌, ◌<◌, ◌==◌, ◌++◌, ℕ, List, codes, length, position, IfOk, IfSome, option_map, is_some};
ghost use Rattle.std.specs.List.{list_all};
ghost use Rattle.fastly_toml.specs.Urls.{place_of, is_shown, is_host_byte, is_inner_byte, is_made_of, after_plain, after_inner, after_host, is_port, told_or_80, with_port, address_of, located, backend_of};

use crate::settings::Backend;
use cache_types::Octets;
use edge_words::read_number;
use std::alloc::{AllocError, Global};

fn first_place(byte: u8, bytes: &[u8]) -> Option<usize>
    ensures place { result ≡ position (λ b. b == byte) bytes.now }
    ensures within { IfSome result (λ place. place < length bytes.now) }
{
    bytes.iter().position(|b| *b == byte)
}

/// Where the first such byte stands, or the end.
fn place_of(byte: u8, bytes: &[u8]) -> usize
    ensures place { result ≡ place_of byte bytes.now }
    ensures within { result ≤ length bytes.now }
{
    match first_place(byte, bytes) {
        Some(place) => place,
        None => bytes.len(),
    }
}

fn is_shown(byte: u8) -> bool
    ensures { result ≡ is_shown byte }
{
    byte > b' ' && byte < 127
}

fn is_host_byte(byte: u8) -> bool
    ensures { result ≡ is_host_byte byte }
{
    is_shown(byte) && !b"/:?#@[]".contains(&byte)
}

fn is_inner_byte(byte: u8) -> bool
    ensures { result ≡ is_inner_byte byte }
{
    byte == b':' || is_host_byte(byte)
}

fn all_shown(bytes: &[u8]) -> bool
    ensures { result ≡ list_all is_shown bytes.now }
{
    bytes.iter().all(|byte| is_shown(*byte))
}

fn all_of_host(bytes: &[u8]) -> bool
    ensures { result ≡ list_all is_host_byte bytes.now }
{
    bytes.iter().all(|byte| is_host_byte(*byte))
}

fn all_inner(bytes: &[u8]) -> bool
    ensures { result ≡ list_all is_inner_byte bytes.now }
{
    bytes.iter().all(|byte| is_inner_byte(*byte))
}

fn is_host(bytes: &[u8]) -> bool
    ensures { result ≡ is_made_of is_host_byte bytes.now }
{
    bytes.len() > 0 && all_of_host(bytes)
}

fn is_inner_host(bytes: &[u8]) -> bool
    ensures { result ≡ is_made_of is_inner_byte bytes.now }
{
    bytes.len() > 0 && all_inner(bytes)
}

/// What stands behind a plain host, which ends before the first `:`.
fn after_plain(bytes: &[u8]) -> Option<&[u8]>
    ensures { option_map (λ rest. rest.now) result ≡ after_plain bytes.now }
{
    let end = place_of(b':', bytes);
    if is_host(&bytes[..end]) {
        Some(&bytes[end..])
    } else {
        None
    }
}

/// What stands behind the rest of a host in brackets.
fn after_inner(bytes: &[u8]) -> Option<&[u8]>
    ensures { option_map (λ rest. rest.now) result ≡ after_inner bytes.now }
{
    let end = place_of(b']', bytes);
    if end < bytes.len() && is_inner_host(&bytes[..end]) {
        Some(&bytes[end + 1..])
    } else {
        None
    }
}

fn after_host(authority: &[u8]) -> Option<&[u8]>
    ensures { option_map (λ rest. rest.now) result ≡ after_host authority.now }
{
    match authority.split_first() {
        Some((b'[', inner)) => after_inner(inner),
        Some(_) => after_plain(authority),
        None => None,
    }
}

fn is_port(digits: &[u8]) -> bool
    ensures { result ≡ is_port digits.now }
{
    match read_number(digits) {
        Some(number) => 0 < number && number <= 65_535,
        None => false,
    }
}

/// Whether a port is told by what stands behind the host, where that is nothing or a port.
fn tells_port(behind: &[u8]) -> Option<bool>
    ensures { (authority : List ℕ) → option_map (told_or_80 authority) result ≡ with_port authority behind.now }
{
    match behind.split_first() {
        Some((mark, digits)) => {
            if *mark == b':' && is_port(digits) {
                Some(true)
            } else {
                None
            }
        }
        None => Some(false),
    }
}

/// The same of an authority.
fn port_told(authority: &[u8]) -> Option<bool>
    ensures { option_map (told_or_80 authority.now) result ≡ address_of authority.now }
{
    match after_host(authority) {
        Some(behind) => tells_port(behind),
        None => None,
    }
}

/// What a url tells, in its own bytes.
#[derive(Clone, Copy)]
pub struct UrlParts<'a> {
    authority: &'a [u8],
    port_told: bool,
    https: bool,
}

/// What follows the scheme.
fn located(https: bool, rest: &[u8]) -> Option<UrlParts<'_>>
    ensures { option_map (λ at. record { address = told_or_80 at.authority.now at.port_told; https = at.https }) result ≡ located https rest.now }
{
    let end = place_of(b'/', rest);
    if !all_shown(&rest[end..]) {
        return None;
    }
    let authority = &rest[..end];
    match port_told(authority) {
        Some(port_told) => Some(UrlParts {
            authority,
            port_told,
            https,
        }),
        None => None,
    }
}

/// What a url tells.
fn told_by(url: &[u8]) -> Option<UrlParts<'_>>
    ensures { option_map (λ at. record { address = told_or_80 at.authority.now at.port_told; https = at.https }) result ≡ backend_of url.now }
{
    if url.starts_with(b"http://") {
        return located(false, &url[7..]);
    }
    if url.starts_with(b"https://") {
        return located(true, &url[8..]);
    }
    None
}

/// Whether it has the form of a url.
pub fn is_url(url: &[u8]) -> bool
    ensures { result ≡ is_some (backend_of url.now) }
{
    told_by(url).is_some()
}

/// An authority with the port 80.
fn at_80(alloc: Global, authority: &[u8]) -> Result<Octets, AllocError>
    ensures { IfOk result (λ address. address ≡ authority.now ++ codes ":80") }
{
    let mut address = authority.to_vec(alloc)?;
    address.extend_from_slice(b":80")?;
    Octets::from_vec(address)
}

fn address(alloc: Global, authority: &[u8], port_told: bool) -> Result<Octets, AllocError>
    ensures { IfOk result (λ address. address ≡ told_or_80 authority.now port_told) }
{
    if port_told {
        Octets::of(alloc, authority)
    } else {
        at_80(alloc, authority)
    }
}

/// The backend that a url tells.
pub fn backend_of(alloc: Global, url: &[u8]) -> Result<Option<Backend>, AllocError>
    ensures { IfOk result (λ backend. backend ≡ backend_of url.now) }
{
    match told_by(url) {
        Some(at) => Ok(Some(Backend {
            address: address(alloc, at.authority, at.port_told)?,
            https: at.https,
        })),
        None => Ok(None),
    }
}
