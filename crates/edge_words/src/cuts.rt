//! Cuts bytes at a separator.

ghost use Rattle.std.specs.Prelude.{◌≡◌, ◌<◌, ◌∷◌, ◌==◌, [], length, IfSome, MatchOption, position};
ghost use Rattle.edge_words.specs.Reading.{parts_at};

/// What stands before and after the first byte `at`, if there is one.
pub fn cut(bytes: &[u8], at: u8) -> Option<(&[u8], &[u8])>
    ensures parts { MatchOption result (parts_at at bytes.now ≡ bytes.now ∷ []) (λ pair. parts_at at bytes.now ≡ pair.0.now ∷ parts_at at pair.1.now) }
    ensures shorter { IfSome result (λ pair. length pair.1.now < length bytes.now) }
{
    match first_place(bytes, at) {
        Some(place) => Some((&bytes[..place], &bytes[place + 1..])),
        None => None,
    }
}

fn first_place(bytes: &[u8], at: u8) -> Option<usize>
    ensures place { result ≡ position (λ byte. byte == at) bytes.now }
    ensures within { IfSome result (λ place. place < length bytes.now) }
{
    bytes.iter().position(|byte| *byte == at)
}
