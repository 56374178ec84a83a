//! The law that a call which isn't answered ok changes nothing.
ghost use Rattle.std.specs.Prelude.{ℕ, List, Option};
ghost use Rattle.cache_types.specs.declared.calls.Field.{Field};
ghost use Rattle.wasm_memory.specs.Linear.{Linear};
ghost use Rattle.edge_abi.specs.Quiet.{RowIsQuiet, RowIsQuietBut};
ghost use Rattle.edge_http_calls.specs.Headers as headers;
ghost use Rattle.edge_http_calls.specs.Requests as requests;
ghost use Rattle.edge_http_calls.specs.Responses as responses;

use crate::tables::HttpTables;

/// A row on requests or responses that isn't answered ok changes neither tables nor memory; one that fills a buffer may write
/// a needed size with buflen.
pub fn refused_rows_change_nothing()
    ensures req_new { (t : HttpTables) (m : Linear) (o : ℕ) → RowIsQuiet t m (requests.http_req_new t m o) }
    ensures req_close { (t : HttpTables) (m : Linear) (h : ℕ) → RowIsQuiet t m (requests.http_req_close t m h) }
    ensures req_version_get { (t : HttpTables) (m : Linear) (h o : ℕ) → RowIsQuiet t m (requests.http_req_version_get t m h o) }
    ensures req_version_set { (t : HttpTables) (m : Linear) (h version : ℕ) → RowIsQuiet t m (requests.http_req_version_set t m h version) }
    ensures req_method_get { (t : HttpTables) (m : Linear) (h b room count : ℕ) → RowIsQuietBut t m (requests.http_req_method_get t m h b room count) }
    ensures req_method_set { (t : HttpTables) (m : Linear) (h p n : ℕ) → RowIsQuiet t m (requests.http_req_method_set t m h p n) }
    ensures req_uri_get { (t : HttpTables) (m : Linear) (h b room count : ℕ) → RowIsQuietBut t m (requests.http_req_uri_get t m h b room count) }
    ensures req_uri_set { (t : HttpTables) (m : Linear) (h p n : ℕ) → RowIsQuiet t m (requests.http_req_uri_set t m h p n) }
    ensures req_downstream { (t : HttpTables) (m : Linear) (o p : ℕ) → RowIsQuiet t m (requests.http_req_body_downstream_get t m o p) }
    ensures resp_new { (t : HttpTables) (m : Linear) (o : ℕ) → RowIsQuiet t m (responses.http_resp_new t m o) }
    ensures resp_close { (t : HttpTables) (m : Linear) (h : ℕ) → RowIsQuiet t m (responses.http_resp_close t m h) }
    ensures resp_version_get { (t : HttpTables) (m : Linear) (h o : ℕ) → RowIsQuiet t m (responses.http_resp_version_get t m h o) }
    ensures resp_version_set { (t : HttpTables) (m : Linear) (h version : ℕ) → RowIsQuiet t m (responses.http_resp_version_set t m h version) }
    ensures resp_status_get { (t : HttpTables) (m : Linear) (h o : ℕ) → RowIsQuiet t m (responses.http_resp_status_get t m h o) }
    ensures resp_status_set { (t : HttpTables) (m : Linear) (h number : ℕ) → RowIsQuiet t m (responses.http_resp_status_set t m h number) }
{}

/// The same of the rows on headers, whichever table they are of.
pub fn refused_header_rows_change_nothing()
    ensures names { (t : HttpTables) (m : Linear) (fields : Option (List Field)) (b room cursor ending count : ℕ) → RowIsQuietBut t m (headers.header_names_get fields t m b room cursor ending count) }
    ensures value { (t : HttpTables) (m : Linear) (fields : Option (List Field)) (p n b room count : ℕ) → RowIsQuietBut t m (headers.header_value_get fields t m p n b room count) }
    ensures values { (t : HttpTables) (m : Linear) (fields : Option (List Field)) (p n b room cursor ending count : ℕ) → RowIsQuietBut t m (headers.header_values_get fields t m p n b room cursor ending count) }
    ensures values_set { (t : HttpTables) (m : Linear) (given : List Field → HttpTables) (fields : Option (List Field)) (p n q len : ℕ) → RowIsQuiet t m (headers.header_values_set given fields t m p n q len) }
    ensures insert { (t : HttpTables) (m : Linear) (given : List Field → HttpTables) (fields : Option (List Field)) (p n q len : ℕ) → RowIsQuiet t m (headers.header_insert given fields t m p n q len) }
    ensures append { (t : HttpTables) (m : Linear) (given : List Field → HttpTables) (fields : Option (List Field)) (p n q len : ℕ) → RowIsQuiet t m (headers.header_append given fields t m p n q len) }
    ensures remove { (t : HttpTables) (m : Linear) (given : List Field → HttpTables) (fields : Option (List Field)) (p n : ℕ) → RowIsQuiet t m (headers.header_remove given fields t m p n) }
{}
