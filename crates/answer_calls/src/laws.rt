//! Laws of the row that answers the client.
ghost use Rattle.std.specs.Prelude.{◌≡◌, ℕ, List, Ok};
ghost use Rattle.cache_types.specs.declared.outer.OuterReply.{OuterReply};
ghost use Rattle.wasm_memory.specs.Linear.{Linear};
ghost use Rattle.edge_abi.specs.Tables.{held};
ghost use Rattle.edge_body.specs.Heads.{Request, Response};
ghost use Rattle.edge_http_calls.specs.Bodies.{parts_in};
ghost use Rattle.body_calls.specs.Pieces.{Answered, Makes, Tell, IsOk, replies_of, written, parts_bytes};
ghost use Rattle.answer_calls.specs.Sends as row;

use edge_http_calls::HttpTables;

/// Where an answer that isn't refused ends ok, its pieces, joined, are the bytes of the body's parts: own bytes, and what
/// each hit has from its place on by the replies to the Reads of it.
pub fn answers_are_the_parts()
    ensures { (content : ℕ → ℕ → List ℕ) (request : Request) (t : HttpTables) (m : Linear) (response body streaming : ℕ) (head : Response) (trace : List Answered)
        → row.sendable t response body streaming ≡ Ok head
        → Makes (row.http_resp_send_downstream request t m response body streaming) trace → Tell content trace
        → IsOk (row.http_resp_send_downstream request t m response body streaming (replies_of trace))
        → written trace ≡ parts_bytes content (parts_in (held t.bodies body)) }
{}

/// An answer that doesn't end ok leaves tables and memory as they were, but that it may count as given.
pub fn failed_answers_keep_tables()
    ensures { (request : Request) (t : HttpTables) (m : Linear) (response body streaming : ℕ) (replies : List OuterReply)
        → row.IsKept t m (row.http_resp_send_downstream request t m response body streaming replies) }
{}
