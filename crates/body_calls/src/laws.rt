//! Laws of the rows on bodies.
ghost use Rattle.std.specs.Prelude.{◌≡◌, ℕ, List, Some, Ok};
ghost use Rattle.wasm_memory.specs.Linear.{Linear};
ghost use Rattle.edge_abi.specs.Quiet.{RowIsQuiet};
ghost use Rattle.edge_abi.specs.Tables.{held};
ghost use Rattle.edge_body.specs.declared.body.Part.{Part};
ghost use Rattle.edge_http_calls.specs.declared.tables.BodyState.{BodyState};
ghost use Rattle.edge_http_calls.specs.declared.tables.To.{To};
ghost use Rattle.edge_http_calls.specs.Bodies as rows;
ghost use Rattle.body_calls.specs.declared.under_way.Then.{Then};
ghost use Rattle.body_calls.specs.Pieces.{Answered, Makes, Tell, IsOk, replies_of, written, parts_bytes};
ghost use Rattle.body_calls.specs.UnderWays as spec;

use edge_http_calls::HttpTables;

/// Where a row that writes parts on is answered ok, the pieces that it wrote, joined, are the parts' bytes: own bytes, and
/// what each hit has from its place on by the replies to the Reads of it. So it is of an append to a body that isn't held.
pub fn pieces_are_the_parts()
    ensures parts { (content : ℕ → ℕ → List ℕ) (t : HttpTables) (m : Linear) (to : To) (then : Then) (parts : List Part) (trace : List Answered)
        → Makes (spec.moves to then parts t m) trace → Tell content trace → IsOk (spec.moves to then parts t m (replies_of trace))
        → written trace ≡ parts_bytes content parts }
    ensures append { (content : ℕ → ℕ → List ℕ) (t : HttpTables) (m : Linear) (h second : ℕ) (state : BodyState) (to : To) (trace : List Answered)
        → rows.appendable t h second ≡ Ok state → rows.target_of state ≡ Some to
        → Makes (rows.http_body_append t m h second) trace → Tell content trace → IsOk (rows.http_body_append t m h second (replies_of trace))
        → written trace ≡ parts_bytes content (rows.parts_in (held t.bodies second)) }
{}

/// A row on bodies that isn't answered ok changes neither tables nor memory, whatever the replies to its calls; but for
/// `close`, which takes its handle with each answer.
pub fn refused_body_rows_change_nothing()
    ensures new { (t : HttpTables) (m : Linear) (o : ℕ) → RowIsQuiet t m (rows.http_body_new t m o) }
    ensures append { (t : HttpTables) (m : Linear) (h second : ℕ) → RowIsQuiet t m (rows.http_body_append t m h second) }
    ensures read { (t : HttpTables) (m : Linear) (h b n o : ℕ) → RowIsQuiet t m (rows.http_body_read t m h b n o) }
    ensures write { (t : HttpTables) (m : Linear) (h p n end o : ℕ) → RowIsQuiet t m (rows.http_body_write t m h p n end o) }
    ensures abandon { (t : HttpTables) (m : Linear) (h : ℕ) → RowIsQuiet t m (rows.http_body_abandon t m h) }
    ensures known_length { (t : HttpTables) (m : Linear) (h o : ℕ) → RowIsQuiet t m (rows.http_body_known_length t m h o) }
{}
