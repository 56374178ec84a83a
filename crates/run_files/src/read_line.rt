//! Reads one line of a block, or one step.

ghost use Rattle.std.specs.Prelude.{◌≡◌, ◌≤◌};
ghost use Rattle.edge_words.specs.Reading.{Gives};
ghost use Rattle.run_files.specs.Run.{most_guests};
ghost use Rattle.run_files.specs.Reading.{line_in, line_at, step_of, step_in, step_at};

use call_lines::{Naming, is_kept, read_form};
use edge_words::{LineFault, Words};
use script_lines::{Line, Step};
use std::alloc::Global;

fn whole_line(alloc: Global, text: &[u8]) -> Result<Line, LineFault>
    ensures { Gives (λ line. line) result (line_in text.now) }
{
    let (line, words) = read_form(alloc, Naming::Marked, Words::of(text))?;
    words.end()?;
    Ok(line)
}

/// The line of a block that the text spells, at this place of the block, counted from 1.
pub fn block_line(alloc: Global, place: usize, text: &[u8]) -> Result<Line, LineFault>
    ensures { Gives (λ line. line) result (line_at place text.now) }
{
    let line = whole_line(alloc, text)?;
    if is_kept(&line, place) {
        Ok(line)
    } else {
        Err(LineFault::Bad)
    }
}

/// The step of one of so many guests that the text spells.
pub fn schedule_step(guests: usize, text: &[u8]) -> Result<Step, LineFault>
    requires { guests ≤ most_guests }
    ensures { Gives (λ step. step) result (step_at guests text.now) }
{
    let (reading, words) = Words::of(text).number()?;
    let (player, words) = words.number_from_to(1, guests as u64)?;
    words.end()?;
    Ok(Step {
        reading,
        player: player as u32,
    })
}
