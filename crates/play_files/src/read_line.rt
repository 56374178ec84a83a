//! Reads one line of a play file.

ghost use Rattle.std.specs.Prelude.{◌≡◌, ◌≤◌, ℕ, List};
ghost use Rattle.edge_words.specs.Reading.{Gives, words_in};
ghost use Rattle.run_files.specs.Run.{most_guests};
ghost use Rattle.run_files.specs.Reading.{step_at};
ghost use Rattle.play_files.specs.Reading.{word_behind, fuel_in, random_in, request_in};

use cache_types::Octets;
use edge_words::{LineFault, Words, read_hex, read_number};
use script_lines::Step;
use std::alloc::Global;

/// The one word behind this name.
pub fn word_behind<'a>(name: &[u8], line: &'a [u8]) -> Result<&'a [u8], LineFault>
    ensures { Gives (λ word. word.now) result (word_behind name.now (words_in line.now)) }
{
    let (first, words) = Words::of(line).word()?;
    if first != name {
        return Err(LineFault::Bad);
    }
    let (word, words) = words.word()?;
    words.end()?;
    Ok(word)
}

/// The fuel of each guest.
pub fn fuel_line(line: &[u8]) -> Result<u64, LineFault>
    ensures { Gives (λ fuel. fuel) result (fuel_in line.now) }
{
    let word = word_behind(b"fuel", line)?;
    match read_number(word) {
        Some(fuel) => Ok(fuel),
        None => Err(LineFault::Bad),
    }
}

/// The 32 random bytes.
pub fn random_line(alloc: Global, line: &[u8]) -> Result<Octets, LineFault>
    ensures { Gives (λ random. random) result (random_in line.now) }
{
    let word = word_behind(b"random", line)?;
    let random = read_hex(alloc, word)?;
    if random.len() == 32 {
        Ok(Octets::from_vec(random)?)
    } else {
        Err(LineFault::Bad)
    }
}

/// The bytes of a request.
pub fn request_line(alloc: Global, line: &[u8]) -> Result<Octets, LineFault>
    ensures { Gives (λ text. text) result (request_in line.now) }
{
    let word = word_behind(b"request", line)?;
    Ok(Octets::from_vec(read_hex(alloc, word)?)?)
}

/// The step of one of so many guests, as a run file spells it.
pub fn step_line(guests: usize, line: &[u8]) -> Result<Step, LineFault>
    requires { guests ≤ most_guests }
    ensures { Gives (λ step. step) result (step_at guests line.now) }
{
    let (reading, words) = Words::of(line).number()?;
    let (guest, words) = words.number_from_to(1, guests as u64)?;
    words.end()?;
    Ok(Step {
        reading,
        player: guest as u32,
    })
}
