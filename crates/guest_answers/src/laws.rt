//! What the answer of a block is.
ghost use Rattle.std.specs.Prelude.{◌≡◌, ◌++◌, ◌∷◌, ℕ, Bool, true, false, List, not, IsTrue};
ghost use Rattle.std.specs.List.{list_any};
ghost use Rattle.cache_types.specs.declared.outer.Done.{Done};
ghost use Rattle.cache_types.specs.declared.outer.Event.{Event};
ghost use Rattle.cache_types.specs.declared.outer.Event.TheVariants as event;
ghost use Rattle.cache_types.specs.declared.outer.OuterCall.TheVariants as outer;
ghost use Rattle.cache_types.specs.declared.outer.OuterReply.{OuterReply};
ghost use Rattle.cache_types.specs.declared.outer.Outcome.{Outcome};
ghost use Rattle.http_front.specs.Frames.{framing_of};
ghost use Rattle.player.specs.Plays.{Answered, events_of};
ghost use Rattle.player.specs.Runs.{are_answers};
ghost use Rattle.guest_answers.specs.declared.answer.Answer.TheVariants.{Headless, Headed};
ghost use Rattle.guest_answers.specs.Wire.{sent, joined, answer_behind, is_headless};
ghost use Rattle.guest_answers.specs.Blocks.{answer_of, bytes_of, unanswered, is_head};

/// A block whose events are answered calls, each with an answer of its kind, has for its answer the bytes that these calls
/// sent, and a failure where they sent no head; where the client was gone before the head, nothing.
pub fn answers_are_what_was_sent()
    ensures sent { (method : List ℕ) (trace : List Answered) (done : Done) → IsTrue (are_answers trace) → done.trace ≡ events_of trace
        → is_headless (answer_behind method trace) ≡ false → answer_of method done ≡ joined (sent method trace) }
    ensures failed { (method : List ℕ) (trace : List Answered) (done : Done) → IsTrue (are_answers trace) → done.trace ≡ events_of trace
        → is_headless (answer_behind method trace) ≡ true → answer_of method done ≡ unanswered done.outcome }
{}

/// An answer is its first head, and then what the events behind that send.
pub fn answers_begin_with_their_head()
    ensures { (method head : List ℕ) (before behind : List Event) (reply : OuterReply) (done : Done) → IsTrue (not (list_any is_head before))
        → done.trace ≡ before ++ event.Outer (outer.Head head) reply ∷ behind
        → answer_of method done ≡ head ++ bytes_of method (Headed (framing_of method head)) behind }
{}
