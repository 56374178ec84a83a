//! The target of a request for a uri.
ghost use Rattle.std.specs.Prelude.{◌≡◌, ◌≤◌, ◌<◌, length, position, IfSome, option_map};
ghost use Rattle.edge_link.specs.Targets.{after_mark, from_authority, ends_authority, is_hash, place_of, after_authority, before_fragment, or_root, target_of};

/// What follows the first `://`.
fn after_mark(uri: &[u8]) -> Option<&[u8]>
    ensures { option_map (λ rest. rest.now) result ≡ after_mark uri.now }
{
    let mut rest = uri;
    while let Some((_, next)) = rest.split_first() {
        if rest.starts_with(b"://") {
            return Some(&rest[3..]);
        }
        rest = next;
    }
    None
}

fn from_authority(uri: &[u8]) -> &[u8]
    ensures { result.now ≡ from_authority uri.now }
{
    match after_mark(uri) {
        Some(rest) => rest,
        None => uri,
    }
}

fn ends_authority(byte: u8) -> bool
    ensures { result ≡ ends_authority byte }
{
    byte == b'/' || byte == b'?' || byte == b'#'
}

fn is_hash(byte: u8) -> bool
    ensures { result ≡ is_hash byte }
{
    byte == b'#'
}

fn authority_place(bytes: &[u8]) -> Option<usize>
    ensures place { result ≡ position ends_authority bytes.now }
    ensures within { IfSome result (λ place. place < length bytes.now) }
{
    bytes.iter().position(|byte| ends_authority(*byte))
}

fn hash_place(bytes: &[u8]) -> Option<usize>
    ensures place { result ≡ position is_hash bytes.now }
    ensures within { IfSome result (λ place. place < length bytes.now) }
{
    bytes.iter().position(|byte| is_hash(*byte))
}

/// Where the authority ends.
fn authority_end(bytes: &[u8]) -> usize
    ensures place { result ≡ place_of ends_authority bytes.now }
    ensures within { result ≤ length bytes.now }
{
    match authority_place(bytes) {
        Some(place) => place,
        None => bytes.len(),
    }
}

/// Where the fragment begins.
fn fragment_start(bytes: &[u8]) -> usize
    ensures place { result ≡ place_of is_hash bytes.now }
    ensures within { result ≤ length bytes.now }
{
    match hash_place(bytes) {
        Some(place) => place,
        None => bytes.len(),
    }
}

fn after_authority(bytes: &[u8]) -> &[u8]
    ensures { result.now ≡ after_authority bytes.now }
{
    &bytes[authority_end(bytes)..]
}

fn before_fragment(bytes: &[u8]) -> &[u8]
    ensures { result.now ≡ before_fragment bytes.now }
{
    &bytes[..fragment_start(bytes)]
}

fn or_root(bytes: &[u8]) -> &[u8]
    ensures { result.now ≡ or_root bytes.now }
{
    if bytes.is_empty() {
        return b"/";
    }
    bytes
}

/// What follows the authority of a uri, without its fragment, or `/` where that is empty.
pub fn target_of(uri: &[u8]) -> &[u8]
    ensures { result.now ≡ target_of uri.now }
{
    or_root(before_fragment(after_authority(from_authority(uri))))
}
