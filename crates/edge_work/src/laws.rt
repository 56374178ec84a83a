//! What the work of a guest comes to: in the one history, and in a sink that tells what it holds.
ghost use Rattle.std.specs.Prelude.{◌≡◌, ◌≤◌, ◌++◌, ℕ, List, length, take, IsTrue, All};
ghost use mathlib.Core.List.{IsPrefix};
ghost use Rattle.cache_types.specs.declared.entries.Entry.{Entry};
ghost use Rattle.cache_types.specs.Entries.{newest_first, has_ended};
ghost use Rattle.cache_types.specs.Legal.{IsLegal};
ghost use Rattle.edge_outside.specs.Made.{Made};
ghost use Rattle.edge_outside.specs.Sink.{SinkContent, Adds};
ghost use Rattle.player.specs.Plays.{Answered};
ghost use Rattle.guest_answers.specs.Wire.{joined};
ghost use Rattle.edge_work.specs.Sent.{all_written, lost};
ghost use Rattle.edge_work.specs.Outside.{IsTimed};
ghost use Rattle.edge_work.specs.Work.{IsTied};

/// Calls that are exactly the entries of a guest that ended, in what a pass saw, are so in the whole history.
pub fn tied_calls_stay_tied()
    ensures { (seen history : List Entry) (guest : ℕ) (trace : List Answered) → IsLegal history → IsPrefix seen history → IsTrue (has_ended (newest_first seen) guest) → IsTied seen guest trace → IsTied history guest trace }
{}

/// And entries made at some readings are so.
pub fn timed_entries_stay_timed()
    ensures { (seen history : List Entry) (readings : List ℕ) (gained : List (ℕ × Entry)) → IsPrefix seen history → All (IsTimed seen readings) gained → All (IsTimed history readings) gained }
{}

/// The bytes of all pieces, in their order.
pub fn written_pieces_are_held()
    ensures { (before after : SinkContent) (pieces : List (List ℕ)) → Made Adds before (all_written pieces) after → after.bytes ≡ before.bytes ++ joined pieces }
{}

/// And a part of the bytes whose write failed.
pub fn lost_pieces_are_held_in_part()
    ensures { (before after : SinkContent) (pieces : List (List ℕ)) (bytes : List ℕ) → Made Adds before (all_written pieces ++ lost bytes) after
        → (n : ℕ) × (n ≤ length bytes) × (after.bytes ≡ before.bytes ++ (joined pieces ++ take n bytes)) }
{}
