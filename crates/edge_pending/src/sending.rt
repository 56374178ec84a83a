//! A request on its way to a backend.
ghost use Rattle.std.specs.Prelude.{◌≡◌, IfOk, IsTrue};
ghost use Rattle.edge_link.specs.Requests.{request_text};
ghost use Rattle.edge_pending.specs.Backends.{is_address};

use crate::backends::text_of;
use crate::under_way::Places;
use cache_types::Octets;
use edge_body::RequestHead;
use edge_link::request_bytes;
use std::alloc::{AllocError, Global};
use std::marker::Model;

/// What becomes of a request once the link took it: its response is received, or a handle keeps its ticket.
#[derive(Clone, Copy, Debug, PartialEq, Eq)]
pub enum Then {
    Receive { places: Places },
    Keep { place: u32 },
}

/// A request whose body is gathered, and the address of its backend, whose bytes are visible ASCII.
#[derive(Drop)]
pub struct Sending {
    head: RequestHead,
    address: Octets,
    next: Then,
}

impl Model for Sending {
    ghost use Rattle.std.specs.Prelude.{IsTrue};
    ghost use Rattle.edge_pending.specs.Backends.{Sent, is_address};

    ghost Value = { Sent };

    ghost view = { λ s. record { head = s.head; address = s.address; next = s.next } };

    ghost invariant = { λ s. IsTrue (is_address s.address) };
}

impl Sending {
    pub fn new(head: RequestHead, address: Octets, next: Then) -> Sending
        requires { IsTrue (is_address address) }
        ensures { result ≡ record { head = head; address = address; next = next } }
    {
        Sending {
            head,
            address,
            next,
        }
    }

    /// The bytes of the request with this body.
    pub fn bytes(&self, alloc: Global, body: &Octets) -> Result<Octets, AllocError>
        ensures { IfOk result (λ bytes. bytes ≡ request_text self.now.head body.now self.now.address) }
    {
        request_bytes(alloc, &self.head, body, text_of(&self.address))
    }

    /// Its method, its backend's address, and what becomes of it.
    pub fn into_parts(self) -> (RequestHead, Octets, Then)
        ensures head { result.0 ≡ self.head }
        ensures address { result.1 ≡ self.address }
        ensures next { result.2 ≡ self.next }
        ensures kept { IsTrue (is_address result.1) }
    {
        let Sending {
            head,
            address,
            next,
        } = self;
        (head, address, next)
    }
}
