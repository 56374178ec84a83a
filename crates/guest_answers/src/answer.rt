//! How far a guest's answer has come.
ghost use Rattle.std.specs.Prelude.{◌≡◌};
ghost use Rattle.guest_answers.specs.Wire.{opened, closed, after_call};

use cache_types::OuterCall;
use edge_body::RequestHead;
use http_front::{Framing, framing};

/// How far a guest's answer has come.
#[derive(Clone, Copy, Debug, PartialEq, Eq)]
pub enum Answer {
    /// No head was sent.
    Headless,
    /// The head was sent, which tells how the body is written.
    Headed(Framing),
    /// The body is over. Nothing is written behind it.
    Closed,
}

fn opened(request: &RequestHead, call: &OuterCall) -> Answer
    ensures { result ≡ opened request.now.method call.now }
{
    match call {
        OuterCall::Head { bytes } => Answer::Headed(framing(request, bytes)),
        _ => Answer::Headless,
    }
}

fn closed(framing: Framing, call: &OuterCall) -> Answer
    ensures { result ≡ closed framing call.now }
{
    match call {
        OuterCall::Close { .. } => Answer::Closed,
        _ => Answer::Headed(framing),
    }
}

/// How far it has come behind a call.
pub fn after_call(request: &RequestHead, answer: Answer, call: &OuterCall) -> Answer
    ensures { result ≡ after_call request.now.method answer call.now }
{
    match answer {
        Answer::Headless => opened(request, call),
        Answer::Headed(framing) => closed(framing, call),
        Answer::Closed => Answer::Closed,
    }
}
