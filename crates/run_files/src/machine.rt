//! What the lines of a run file said so far, and with one more.

ghost use Rattle.std.specs.Prelude.{◌≡◌, ◌≤◌, length};
ghost use Rattle.edge_words.specs.Reading.{Gives};
ghost use Rattle.run_files.specs.Run.{most_guests};
ghost use Rattle.run_files.specs.Machine.{Progress, seen, after_line, after_in_block, after_in_steps, finished, machine, IsProgress};

use crate::limits::{MOST_GUESTS, MOST_STEPS};
use crate::read_line::{block_line, schedule_step};
use crate::run::Run;
use edge_words::LineFault;
use line_reader::LineMachine;
use script_lines::{Blocks, Line, Lines, Step, Steps};
use std::alloc::Global;

/// What the lines of a run file said so far.
#[derive(Drop)]
pub enum State {
    Start,
    Begun,
    Block {
        closed: Vec<Lines>,
        opened: Vec<Line>,
    },
    Steps {
        guests: Vec<Lines>,
        steps: Vec<Step>,
    },
    Over {
        guests: Vec<Lines>,
        steps: Vec<Step>,
    },
}

fn in_block(
    alloc: Global,
    mut closed: Vec<Lines>,
    mut opened: Vec<Line>,
    line: &[u8],
) -> Result<State, LineFault>
    ensures { Gives seen result (after_in_block closed.items opened.items line.now) }
{
    if line == b"guest".as_slice() {
        if closed.len() >= MOST_GUESTS - 1 {
            return Err(LineFault::Bad);
        }
        closed.push(Lines::of(opened))?;
        return Ok(State::Block {
            closed,
            opened: Vec::new(alloc),
        });
    }
    if line == b"steps".as_slice() {
        closed.push(Lines::of(opened))?;
        return Ok(State::Steps {
            guests: closed,
            steps: Vec::new(alloc),
        });
    }
    let read = block_line(alloc, opened.len() + 1, line)?;
    opened.push(read)?;
    Ok(State::Block { closed, opened })
}

fn in_steps(guests: Vec<Lines>, mut steps: Vec<Step>, line: &[u8]) -> Result<State, LineFault>
    requires { length guests.items ≤ most_guests }
    ensures { Gives seen result (after_in_steps guests.items steps.items line.now) }
{
    if line == b"end".as_slice() {
        return Ok(State::Over { guests, steps });
    }
    if steps.len() >= MOST_STEPS {
        return Err(LineFault::Bad);
    }
    let step = schedule_step(guests.len(), line)?;
    steps.push(step)?;
    Ok(State::Steps { guests, steps })
}

/// What the lines said with one more.
fn next_state(alloc: Global, state: State, line: &[u8]) -> Result<State, LineFault>
    requires { IsProgress (seen state) }
    ensures { Gives seen result (after_line (seen state) line.now) }
{
    match state {
        State::Start => {
            if line == b"edge-run 1".as_slice() {
                Ok(State::Begun)
            } else {
                Err(LineFault::Bad)
            }
        }
        State::Begun => {
            if line == b"guest".as_slice() {
                Ok(State::Block {
                    closed: Vec::new(alloc),
                    opened: Vec::new(alloc),
                })
            } else if line == b"steps".as_slice() {
                Ok(State::Steps {
                    guests: Vec::new(alloc),
                    steps: Vec::new(alloc),
                })
            } else {
                Err(LineFault::Bad)
            }
        }
        State::Block { closed, opened } => in_block(alloc, closed, opened, line),
        State::Steps { guests, steps } => in_steps(guests, steps, line),
        State::Over {
            guests: _,
            steps: _,
        } => Err(LineFault::Bad),
    }
}

/// The run, where all was said and nothing stands behind it.
fn run_of(state: State, rest: &[u8]) -> Option<Run>
    ensures { result ≡ finished (seen state) rest.now }
{
    match state {
        State::Over { guests, steps } => {
            if rest.is_empty() {
                Some(Run {
                    guests: Blocks::of(guests),
                    steps: Steps::of(steps),
                })
            } else {
                None
            }
        }
        _ => None,
    }
}

impl LineMachine for State {
    type Value = Run;

    ghost Said = { Progress };

    ghost said = { seen };

    ghost machine = { machine };

    ghost Stands = { IsProgress };

    fn start() -> Self {
        State::Start
    }

    fn next(self, alloc: Global, line: &[u8]) -> Result<Self, LineFault> {
        next_state(alloc, self, line)
    }

    fn finish(self, rest: &[u8]) -> Option<Run> {
        run_of(self, rest)
    }
}
