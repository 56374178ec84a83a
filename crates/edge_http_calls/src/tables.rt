//! What a guest has of requests, responses and bodies.
ghost use Rattle.std.specs.Prelude.{◌≡◌, [], false, Some, IsTrue, IfSome, option_copied};
ghost use Rattle.edge_body.specs.Heads.{are_fields};
ghost use Rattle.edge_http_calls.specs.Tables.{request_fields, response_fields, with_request_fields, with_response_fields};

use cache_types::{Fields, Octets};
use edge_abi::Table;
use edge_body::{Body, RequestHead, ResponseHead};
use std::alloc::Global;

/// Where the bytes of a body are: the guest holds them, they fill an object of the cache, or they are the streamed answer.
#[derive(Drop)]
pub enum BodyState {
    Held(Body),
    Filling { object: u64 },
    Down,
}

/// Where pieces are written.
#[derive(Clone, Copy, Debug, PartialEq, Eq)]
pub enum To {
    Filling { object: u64 },
    Down,
}

/// The tables of one guest. `head` and `body` are the request that it answers, until it asked for them; `answered` says that
/// it sent an answer.
#[derive(Drop)]
pub struct HttpTables {
    pub requests: Table<RequestHead>,
    pub responses: Table<ResponseHead>,
    pub bodies: Table<BodyState>,
    pub head: Option<RequestHead>,
    pub body: Option<Octets>,
    pub answered: bool,
}

impl HttpTables {
    /// What a guest has when it begins to answer a request.
    pub fn new(alloc: Global, head: RequestHead, body: Octets) -> HttpTables
        ensures { result ≡ record { requests = []; responses = []; bodies = []; head = Some head; body = Some body; answered = false } }
    {
        HttpTables {
            requests: Table::new(alloc),
            responses: Table::new(alloc),
            bodies: Table::new(alloc),
            head: Some(head),
            body: Some(body),
            answered: false,
        }
    }

    /// The headers of the request that a handle names.
    pub fn request_fields(&self, h: u32) -> Option<&Fields>
        ensures value { option_copied result ≡ request_fields self.now h }
        ensures kept { IfSome result (λ fields. IsTrue (are_fields fields.now)) }
    {
        match self.requests.get(h) {
            Some(head) => Some(head.fields()),
            None => None,
        }
    }

    /// The headers of the response that a handle names.
    pub fn response_fields(&self, h: u32) -> Option<&Fields>
        ensures value { option_copied result ≡ response_fields self.now h }
        ensures kept { IfSome result (λ fields. IsTrue (are_fields fields.now)) }
    {
        match self.responses.get(h) {
            Some(head) => Some(head.fields()),
            None => None,
        }
    }

    /// The request that a handle names has these headers.
    pub fn set_request_fields(&mut self, h: u32, fields: Fields)
        requires { IsTrue (are_fields fields) }
        ensures { self.new ≡ with_request_fields self.old h fields }
    {
        if let Some(head) = self.requests.get_mut(h) {
            head.set_fields(fields);
        }
    }

    /// The response that a handle names has these headers.
    pub fn set_response_fields(&mut self, h: u32, fields: Fields)
        requires { IsTrue (are_fields fields) }
        ensures { self.new ≡ with_response_fields self.old h fields }
    {
        if let Some(head) = self.responses.get_mut(h) {
            head.set_fields(fields);
        }
    }
}
