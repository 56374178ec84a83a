//! Writes how a guest ended.

ghost use Rattle.std.specs.Prelude.{◌≡◌, ◌++◌, IfOk};
ghost use Rattle.std.specs.List.{flat_map};
ghost use Rattle.edge_words.specs.Words.{spaced};
ghost use Rattle.journal_writer.specs.Journal.{trap_word, outcome_words};

use cache_types::{Outcome, TrapNumber};
use edge_words::Text;
use std::alloc::AllocError;

fn trap_name(trap: TrapNumber) -> &'static [u8]
    ensures { result.now ≡ trap_word trap }
{
    match trap {
        TrapNumber::Unreachable => b"unreachable",
        TrapNumber::DivideByZero => b"divide",
        TrapNumber::Overflow => b"overflow",
        TrapNumber::OutOfBounds => b"bounds",
        TrapNumber::TableBounds => b"table",
        TrapNumber::NullElement => b"null",
        TrapNumber::IndirectType => b"indirect",
        TrapNumber::StackFull => b"stack",
        TrapNumber::Segment => b"segment",
    }
}

/// The words of an outcome after a space.
pub fn outcome(text: Text, outcome: Outcome) -> Result<Text, AllocError>
    ensures { IfOk result (λ written. written ≡ text ++ flat_map spaced (outcome_words outcome)) }
{
    match outcome {
        Outcome::Returned => text.word(b"returned"),
        Outcome::Exited(code) => text.word(b"exited")?.number(u64::from(code)),
        Outcome::Trapped(trap) => text.word(b"trapped")?.word(trap_name(trap)),
        Outcome::OutOfFuel => text.word(b"fuel"),
        Outcome::Timeout { first, reading } => text
            .word(b"timeout")?
            .number(first)?
            .number(reading),
        Outcome::HistoryFull => text.word(b"full"),
        Outcome::ClientGone => text.word(b"gone"),
        Outcome::Unscheduled => text.word(b"unscheduled"),
        Outcome::OutOfMemory => text.word(b"memory"),
    }
}
