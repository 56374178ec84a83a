//! Reads how a guest ended.

ghost use Rattle.std.specs.Prelude.{◌≡◌};
ghost use Rattle.edge_words.specs.Reading.{Gives};
ghost use Rattle.edge_words.specs.Choices.{made};
ghost use Rattle.journal_reader.specs.Events.{small_said, numbers_said, timeout_of, trapped_of, trap_in, outcome_in};

use crate::read_numbers::{numbers, small};
use cache_types::{Outcome, TrapNumber};
use edge_words::{LineFault, Words};

fn exited(words: Words<'_>) -> Result<u32, LineFault>
    ensures { Gives (λ code. code) result (small_said words.entry) }
{
    let (code, words) = small(words)?;
    words.end()?;
    Ok(code)
}

fn timeout(words: Words<'_>) -> Result<Outcome, LineFault>
    ensures { Gives (λ outcome. outcome) result (made timeout_of numbers_said words.entry) }
{
    let (first, reading) = numbers(words)?;
    Ok(Outcome::Timeout { first, reading })
}

#[tactic(auto, unfolding(crate::specs::Events::trap_in))]
fn trap(words: Words<'_>) -> Result<TrapNumber, LineFault>
    ensures { Gives (λ trap. trap) result (trap_in words.entry) }
{
    let (name, words) = words.word()?;
    if name == b"unreachable".as_slice() {
        return words.alone(TrapNumber::Unreachable);
    }
    if name == b"divide".as_slice() {
        return words.alone(TrapNumber::DivideByZero);
    }
    if name == b"overflow".as_slice() {
        return words.alone(TrapNumber::Overflow);
    }
    if name == b"bounds".as_slice() {
        return words.alone(TrapNumber::OutOfBounds);
    }
    if name == b"table".as_slice() {
        return words.alone(TrapNumber::TableBounds);
    }
    if name == b"null".as_slice() {
        return words.alone(TrapNumber::NullElement);
    }
    if name == b"indirect".as_slice() {
        return words.alone(TrapNumber::IndirectType);
    }
    if name == b"stack".as_slice() {
        return words.alone(TrapNumber::StackFull);
    }
    if name == b"segment".as_slice() {
        return words.alone(TrapNumber::Segment);
    }
    Err(LineFault::Bad)
}

fn trapped(words: Words<'_>) -> Result<Outcome, LineFault>
    ensures { Gives (λ outcome. outcome) result (made trapped_of trap_in words.entry) }
{
    let trap = trap(words)?;
    Ok(Outcome::Trapped(trap))
}

/// The outcome that all words left spell.
#[tactic(auto, unfolding(crate::specs::Events::outcome_in))]
pub fn outcome_of(words: Words<'_>) -> Result<Outcome, LineFault>
    ensures { Gives (λ outcome. outcome) result (outcome_in words.entry) }
{
    let (name, words) = words.word()?;
    if name == b"returned".as_slice() {
        return words.alone(Outcome::Returned);
    }
    if name == b"exited".as_slice() {
        return exited(words).map(Outcome::Exited);
    }
    if name == b"trapped".as_slice() {
        return trapped(words);
    }
    if name == b"fuel".as_slice() {
        return words.alone(Outcome::OutOfFuel);
    }
    if name == b"timeout".as_slice() {
        return timeout(words);
    }
    if name == b"full".as_slice() {
        return words.alone(Outcome::HistoryFull);
    }
    if name == b"gone".as_slice() {
        return words.alone(Outcome::ClientGone);
    }
    if name == b"unscheduled".as_slice() {
        return words.alone(Outcome::Unscheduled);
    }
    if name == b"memory".as_slice() {
        return words.alone(Outcome::OutOfMemory);
    }
    Err(LineFault::Bad)
}
