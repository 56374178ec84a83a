//! What makes guests of requests.
ghost use Rattle.std.specs.Prelude.{◌≡◌, ℕ, [], None, false, IfOk};
ghost use Rattle.http_front.specs.declared.heads.Incoming.{Incoming};
ghost use Rattle.player.specs.Plays.{Program};

use http_front::Incoming;
use player::Player;
use std::alloc::{AllocError, Global};

/// Makes a guest of each request.
pub trait GuestMaker {
    type Guest: Player + Drop;

    /// It can make guests.
    ghost can: { Self → Type 0 };

    /// A program that the guest of this request may have, under this index.
    ghost Began: { Self → ℕ → Incoming → Program → Type 0 };

    /// A new guest, which is to answer the request. It has a program.
    fn make(&self, alloc: Global, index: u64, request: &Incoming) -> Result<Self::Guest, AllocError>
        requires { can self.now }
        ensures program { IfOk result (λ guest. (next : Program) × Began self.now index request.now next) }
        ensures plays { IfOk result (λ guest. (next : Program) → Began self.now index request.now next → Self.Guest.Plays guest next []) }
        ensures new { IfOk result (λ guest. (Self.Guest.stopped guest ≡ None) × (Self.Guest.ended guest ≡ false)) };
}
