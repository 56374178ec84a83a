//! Laws of the definitions.
ghost use Rattle.std.specs.Prelude.{◌≡◌, ℕ, List};
ghost use Rattle.edge_body.specs.Heads.{Response};
ghost use Rattle.edge_link.specs.Readings.{Reading, IsReading};
ghost use Rattle.edge_link.specs.Responses.{IsResponse};

/// Bytes hold one response to a method at most, with one body.
pub fn one_response_at_most()
    ensures { (method bytes : List ℕ) (one other : Response) (body others : List ℕ)
        → IsResponse method bytes one body → IsResponse method bytes other others → (one ≡ other) × (body ≡ others) }
{}

/// There is a reading of all bytes.
pub fn there_is_a_reading()
    ensures { (reads : Reading) × IsReading reads }
{}
