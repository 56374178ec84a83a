//! The rows on requests, responses and bodies, by their calls.
ghost use Rattle.std.specs.Prelude.{◌≡◌, IfOk};
ghost use Rattle.edge_abi.specs.Goes.{Ends};
ghost use Rattle.guest_calls.specs.Rows as spec;

use crate::call::{BodyCall, HeaderCall, HttpCall, RequestCall, ResponseCall};
use crate::words::Words;
use edge_abi::Status;
use edge_http_calls::{
    HttpTables, http_body_known_length, http_body_new, http_req_body_downstream_get,
    http_req_close, http_req_header_append, http_req_header_insert, http_req_header_names_get,
    http_req_header_remove, http_req_header_value_get, http_req_header_values_get,
    http_req_header_values_set, http_req_method_get, http_req_method_set, http_req_new,
    http_req_uri_get, http_req_uri_set, http_req_version_get, http_req_version_set,
    http_resp_close, http_resp_header_append, http_resp_header_insert, http_resp_header_names_get,
    http_resp_header_remove, http_resp_header_value_get, http_resp_header_values_get,
    http_resp_header_values_set, http_resp_new, http_resp_status_get, http_resp_status_set,
    http_resp_version_get, http_resp_version_set,
};
use std::alloc::{AllocError, Global};
use wasm_memory::Memory;

fn request_row(
    alloc: Global,
    call: RequestCall,
    words: Words,
    tables: &mut HttpTables,
    memory: &mut Memory,
) -> Result<Status, AllocError>
    ensures { IfOk result (λ status. Ends (spec.request_row call words tables.old memory.old) status tables.new memory.new) }
{
    match call {
        RequestCall::New => http_req_new(alloc, tables, memory, words.a),
        RequestCall::Close => http_req_close(alloc, tables, memory, words.a),
        RequestCall::VersionGet => http_req_version_get(alloc, tables, memory, words.a, words.b),
        RequestCall::VersionSet => http_req_version_set(alloc, tables, memory, words.a, words.b),
        RequestCall::BodyDownstreamGet => http_req_body_downstream_get(
            alloc, tables, memory, words.a, words.b,
        ),
        RequestCall::MethodGet => http_req_method_get(
            alloc, tables, memory, words.a, words.b, words.c, words.d,
        ),
        RequestCall::MethodSet => http_req_method_set(
            alloc, tables, memory, words.a, words.b, words.c,
        ),
        RequestCall::UriGet => http_req_uri_get(
            alloc, tables, memory, words.a, words.b, words.c, words.d,
        ),
        RequestCall::UriSet => http_req_uri_set(alloc, tables, memory, words.a, words.b, words.c),
    }
}

fn response_row(
    alloc: Global,
    call: ResponseCall,
    words: Words,
    tables: &mut HttpTables,
    memory: &mut Memory,
) -> Result<Status, AllocError>
    ensures { IfOk result (λ status. Ends (spec.response_row call words tables.old memory.old) status tables.new memory.new) }
{
    match call {
        ResponseCall::New => http_resp_new(alloc, tables, memory, words.a),
        ResponseCall::Close => http_resp_close(alloc, tables, memory, words.a),
        ResponseCall::VersionGet => http_resp_version_get(alloc, tables, memory, words.a, words.b),
        ResponseCall::VersionSet => http_resp_version_set(alloc, tables, memory, words.a, words.b),
        ResponseCall::StatusGet => http_resp_status_get(alloc, tables, memory, words.a, words.b),
        ResponseCall::StatusSet => http_resp_status_set(alloc, tables, memory, words.a, words.b),
    }
}

fn request_headers(
    alloc: Global,
    call: HeaderCall,
    words: Words,
    tables: &mut HttpTables,
    memory: &mut Memory,
) -> Result<Status, AllocError>
    ensures { IfOk result (λ status. Ends (spec.request_headers call words tables.old memory.old) status tables.new memory.new) }
{
    match call {
        HeaderCall::NamesGet => {
            http_req_header_names_get(
                alloc, tables, memory, words.a, words.b, words.c, words.d, words.e, words.f,
            )
        }
        HeaderCall::ValueGet => {
            http_req_header_value_get(
                alloc, tables, memory, words.a, words.b, words.c, words.d, words.e, words.f,
            )
        }
        HeaderCall::ValuesGet => {
            http_req_header_values_get(
                alloc, tables, memory, words.a, words.b, words.c, words.d, words.e, words.f,
                words.g, words.h,
            )
        }
        HeaderCall::ValuesSet => http_req_header_values_set(
            alloc, tables, memory, words.a, words.b, words.c, words.d, words.e,
        ),
        HeaderCall::Insert => http_req_header_insert(
            alloc, tables, memory, words.a, words.b, words.c, words.d, words.e,
        ),
        HeaderCall::Append => http_req_header_append(
            alloc, tables, memory, words.a, words.b, words.c, words.d, words.e,
        ),
        HeaderCall::Remove => http_req_header_remove(
            alloc, tables, memory, words.a, words.b, words.c,
        ),
    }
}

fn response_headers(
    alloc: Global,
    call: HeaderCall,
    words: Words,
    tables: &mut HttpTables,
    memory: &mut Memory,
) -> Result<Status, AllocError>
    ensures { IfOk result (λ status. Ends (spec.response_headers call words tables.old memory.old) status tables.new memory.new) }
{
    match call {
        HeaderCall::NamesGet => {
            http_resp_header_names_get(
                alloc, tables, memory, words.a, words.b, words.c, words.d, words.e, words.f,
            )
        }
        HeaderCall::ValueGet => {
            http_resp_header_value_get(
                alloc, tables, memory, words.a, words.b, words.c, words.d, words.e, words.f,
            )
        }
        HeaderCall::ValuesGet => {
            http_resp_header_values_get(
                alloc, tables, memory, words.a, words.b, words.c, words.d, words.e, words.f,
                words.g, words.h,
            )
        }
        HeaderCall::ValuesSet => http_resp_header_values_set(
            alloc, tables, memory, words.a, words.b, words.c, words.d, words.e,
        ),
        HeaderCall::Insert => http_resp_header_insert(
            alloc, tables, memory, words.a, words.b, words.c, words.d, words.e,
        ),
        HeaderCall::Append => http_resp_header_append(
            alloc, tables, memory, words.a, words.b, words.c, words.d, words.e,
        ),
        HeaderCall::Remove => http_resp_header_remove(
            alloc, tables, memory, words.a, words.b, words.c,
        ),
    }
}

fn body_row(
    alloc: Global,
    call: BodyCall,
    words: Words,
    tables: &mut HttpTables,
    memory: &mut Memory,
) -> Result<Status, AllocError>
    ensures { IfOk result (λ status. Ends (spec.body_row call words tables.old memory.old) status tables.new memory.new) }
{
    match call {
        BodyCall::New => http_body_new(alloc, tables, memory, words.a),
        BodyCall::KnownLength => http_body_known_length(alloc, tables, memory, words.a, words.b),
    }
}

/// Starts the row of a call, which makes no outer call.
pub fn http_row(
    alloc: Global,
    call: HttpCall,
    words: Words,
    tables: &mut HttpTables,
    memory: &mut Memory,
) -> Result<Status, AllocError>
    ensures { IfOk result (λ status. Ends (spec.http_row call words tables.old memory.old) status tables.new memory.new) }
{
    match call {
        HttpCall::Request(call) => request_row(alloc, call, words, tables, memory),
        HttpCall::RequestHeaders(call) => request_headers(alloc, call, words, tables, memory),
        HttpCall::Response(call) => response_row(alloc, call, words, tables, memory),
        HttpCall::ResponseHeaders(call) => response_headers(alloc, call, words, tables, memory),
        HttpCall::Body(call) => body_row(alloc, call, words, tables, memory),
    }
}
