//! The heads of requests and responses.
ghost use Rattle.std.specs.Prelude.{◌≡◌, IfOk, IsTrue};
ghost use Rattle.edge_body.specs.Heads.{is_uri, are_fields, is_status};

use cache_types::{Copied, Fields, Octets};
use std::alloc::{AllocError, Global};
use std::marker::Model;

/// The head of a request. Its version is 0 to 4 for HTTP/0.9, 1.0, 1.1, 2 and 3.
#[derive(Debug, Drop)]
pub struct RequestHead {
    method: Octets,
    uri: Octets,
    version: u32,
    fields: Fields,
}

impl Model for RequestHead {
    ghost use Rattle.std.specs.Prelude.{IsTrue};
    ghost use Rattle.edge_body.specs.Heads.{Request, is_uri, are_fields};

    ghost Value = { Request };

    ghost view = { λ h. record { method = h.method; uri = h.uri; version = h.version; fields = h.fields } };

    ghost invariant = { λ h. IsTrue (is_uri h.uri) × IsTrue (are_fields h.fields) };
}

impl RequestHead {
    /// The head of these parts.
    pub fn new(method: Octets, uri: Octets, version: u32, fields: Fields) -> RequestHead
        requires uri { IsTrue (is_uri uri) }
        requires fields { IsTrue (are_fields fields) }
        ensures { result ≡ record { method = method; uri = uri; version = version; fields = fields } }
    {
        RequestHead {
            method,
            uri,
            version,
            fields,
        }
    }

    pub fn method(&self) -> &Octets
        ensures { result.now ≡ self.now.method }
    {
        &self.method
    }

    pub fn uri(&self) -> &Octets
        ensures value { result.now ≡ self.now.uri }
        ensures kept { IsTrue (is_uri result.now) }
    {
        &self.uri
    }

    /// 0 to 4 for HTTP/0.9, 1.0, 1.1, 2 and 3.
    pub fn version(&self) -> u32
        ensures { result ≡ self.now.version }
    {
        self.version
    }

    /// The headers in their order.
    pub fn fields(&self) -> &Fields
        ensures value { result.now ≡ self.now.fields }
        ensures kept { IsTrue (are_fields result.now) }
    {
        &self.fields
    }

    pub fn set_method(&mut self, method: Octets)
        ensures { self.new ≡ record self.old { method = method } }
    {
        self.method = method;
    }

    pub fn set_uri(&mut self, uri: Octets)
        requires { IsTrue (is_uri uri) }
        ensures { self.new ≡ record self.old { uri = uri } }
    {
        self.uri = uri;
    }

    pub fn set_version(&mut self, version: u32)
        ensures { self.new ≡ record self.old { version = version } }
    {
        self.version = version;
    }

    pub fn set_fields(&mut self, fields: Fields)
        requires { IsTrue (are_fields fields) }
        ensures { self.new ≡ record self.old { fields = fields } }
    {
        self.fields = fields;
    }
}

impl Copied for RequestHead {
    fn copy(&self, alloc: Global) -> Result<RequestHead, AllocError> {
        Ok(RequestHead {
            method: self.method.copy(alloc)?,
            uri: self.uri.copy(alloc)?,
            version: self.version,
            fields: self.fields.copy(alloc)?,
        })
    }
}

/// The head of a response. Its status is from 200 to 999, its version as that of a request.
#[derive(Debug, Drop)]
pub struct ResponseHead {
    status: u16,
    version: u32,
    fields: Fields,
}

impl Model for ResponseHead {
    ghost use Rattle.std.specs.Prelude.{IsTrue};
    ghost use Rattle.edge_body.specs.Heads.{Response, is_status, are_fields};

    ghost Value = { Response };

    ghost view = { λ h. record { status = h.status; version = h.version; fields = h.fields } };

    ghost invariant = { λ h. IsTrue (is_status h.status) × IsTrue (are_fields h.fields) };
}

impl ResponseHead {
    /// The head of these parts.
    pub fn new(status: u16, version: u32, fields: Fields) -> ResponseHead
        requires status { IsTrue (is_status status) }
        requires fields { IsTrue (are_fields fields) }
        ensures { result ≡ record { status = status; version = version; fields = fields } }
    {
        ResponseHead {
            status,
            version,
            fields,
        }
    }

    pub fn status(&self) -> u16
        ensures value { result ≡ self.now.status }
        ensures kept { IsTrue (is_status result) }
    {
        self.status
    }

    /// 0 to 4 for HTTP/0.9, 1.0, 1.1, 2 and 3.
    pub fn version(&self) -> u32
        ensures { result ≡ self.now.version }
    {
        self.version
    }

    /// The headers in their order.
    pub fn fields(&self) -> &Fields
        ensures value { result.now ≡ self.now.fields }
        ensures kept { IsTrue (are_fields result.now) }
    {
        &self.fields
    }

    pub fn set_status(&mut self, status: u16)
        requires { IsTrue (is_status status) }
        ensures { self.new ≡ record self.old { status = status } }
    {
        self.status = status;
    }

    pub fn set_version(&mut self, version: u32)
        ensures { self.new ≡ record self.old { version = version } }
    {
        self.version = version;
    }

    pub fn set_fields(&mut self, fields: Fields)
        requires { IsTrue (are_fields fields) }
        ensures { self.new ≡ record self.old { fields = fields } }
    {
        self.fields = fields;
    }
}

impl Copied for ResponseHead {
    fn copy(&self, alloc: Global) -> Result<ResponseHead, AllocError> {
        Ok(ResponseHead {
            status: self.status,
            version: self.version,
            fields: self.fields.copy(alloc)?,
        })
    }
}
