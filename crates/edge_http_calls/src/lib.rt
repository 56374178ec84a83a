//! The calls of `fastly_http_req`, `fastly_http_resp` and `fastly_http_body` that need nothing but the guest's own tables and
//! memory.
//!
//! Each row of the table of calls is a function of the replies to its outer calls, and the code of a row gives what the row
//! says, whatever the replies. A number that the guest's own table doesn't hold answers badf.
#![tactic(auto)]

mod asked;
mod bodies;
mod edits;
mod fields;
mod headers;
mod held;
mod laws;
mod request_headers;
mod requests;
mod response_headers;
mod responses;
mod tables;
mod texts;

pub use asked::handled;
pub use bodies::{http_body_abandon, http_body_close, http_body_known_length, http_body_new};
pub use held::{appendable, http_body_append, http_body_read, http_body_write, readable, writable};
pub use laws::{refused_header_rows_change_nothing, refused_rows_change_nothing};
pub use request_headers::{
    http_req_header_append, http_req_header_insert, http_req_header_names_get,
    http_req_header_remove, http_req_header_value_get, http_req_header_values_get,
    http_req_header_values_set,
};
pub use requests::{
    http_req_body_downstream_get, http_req_close, http_req_method_get, http_req_method_set,
    http_req_new, http_req_uri_get, http_req_uri_set, http_req_version_get, http_req_version_set,
};
pub use response_headers::{
    http_resp_header_append, http_resp_header_insert, http_resp_header_names_get,
    http_resp_header_remove, http_resp_header_value_get, http_resp_header_values_get,
    http_resp_header_values_set,
};
pub use responses::{
    http_resp_close, http_resp_new, http_resp_status_get, http_resp_status_set,
    http_resp_version_get, http_resp_version_set,
};
pub use tables::{BodyState, HttpTables, To};
