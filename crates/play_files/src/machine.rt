//! What the lines of a play file said so far, and with one more.

ghost use Rattle.std.specs.Prelude.{◌≡◌, ◌≤◌, [], length};
ghost use Rattle.run_files.specs.Run.{most_guests};
ghost use Rattle.play_files.specs.Machine.{seen, head_of, Asking, Steps, IsProgress, IsSound, LeadsTo, EndsWith};
ghost use Rattle.play_files.specs.Requests.{AreRequests};

use crate::limits::{MOST_GUESTS, MOST_STEPS};
use crate::play::{PlayFile, Requests};
use crate::read_line::{fuel_line, random_line, request_line, step_line};
use crate::whole::whole_request;
use cache_types::Octets;
use edge_words::LineFault;
use http_front::Incoming;
use script_lines::{Step, Steps};
use std::alloc::Global;

/// What the lines of a play file said so far. Each text stands with its request.
#[derive(Drop)]
pub enum State {
    Start,
    Begun,
    Fuelled {
        fuel: u64,
    },
    Asking {
        fuel: u64,
        random: Octets,
        texts: Vec<Octets>,
        requests: Vec<Incoming>,
    },
    Steps {
        fuel: u64,
        random: Octets,
        texts: Vec<Octets>,
        requests: Vec<Incoming>,
        steps: Vec<Step>,
    },
    Over {
        fuel: u64,
        random: Octets,
        texts: Vec<Octets>,
        requests: Vec<Incoming>,
        steps: Vec<Step>,
    },
}

/// A request, or the line before the steps.
fn in_requests(
    alloc: Global,
    fuel: u64,
    random: Octets,
    mut texts: Vec<Octets>,
    mut requests: Vec<Incoming>,
    line: &[u8],
) -> Result<State, LineFault>
    requires { AreRequests texts.items requests.items }
    ensures { LeadsTo (Asking (head_of fuel random) texts.items) line.now result }
{
    if line == b"steps".as_slice() {
        return Ok(State::Steps {
            fuel,
            random,
            texts,
            requests,
            steps: Vec::new(alloc),
        });
    }
    if texts.len() >= MOST_GUESTS {
        return Err(LineFault::Bad);
    }
    let text = request_line(alloc, line)?;
    requests.push(whole_request(alloc, text.bytes())?)?;
    texts.push(text)?;
    Ok(State::Asking {
        fuel,
        random,
        texts,
        requests,
    })
}

/// A step, or the last line.
fn in_steps(
    fuel: u64,
    random: Octets,
    texts: Vec<Octets>,
    requests: Vec<Incoming>,
    mut steps: Vec<Step>,
    line: &[u8],
) -> Result<State, LineFault>
    requires few { length texts.items ≤ most_guests }
    requires requests { AreRequests texts.items requests.items }
    ensures { LeadsTo (Steps (head_of fuel random) texts.items steps.items) line.now result }
{
    if line == b"end".as_slice() {
        return Ok(State::Over {
            fuel,
            random,
            texts,
            requests,
            steps,
        });
    }
    if steps.len() >= MOST_STEPS {
        return Err(LineFault::Bad);
    }
    let step = step_line(texts.len(), line)?;
    steps.push(step)?;
    Ok(State::Steps {
        fuel,
        random,
        texts,
        requests,
        steps,
    })
}

/// What the lines said with one more.
pub fn next_state(alloc: Global, state: State, line: &[u8]) -> Result<State, LineFault>
    requires stands { IsProgress (seen state) }
    requires sound { IsSound state }
    ensures { LeadsTo (seen state) line.now result }
{
    match state {
        State::Start => {
            if line == b"edge-play 1".as_slice() {
                Ok(State::Begun)
            } else {
                Err(LineFault::Bad)
            }
        }
        State::Begun => Ok(State::Fuelled {
            fuel: fuel_line(line)?,
        }),
        State::Fuelled { fuel } => Ok(State::Asking {
            fuel,
            random: random_line(alloc, line)?,
            texts: Vec::new(alloc),
            requests: Vec::new(alloc),
        }),
        State::Asking {
            fuel,
            random,
            texts,
            requests,
        } => in_requests(alloc, fuel, random, texts, requests, line),
        State::Steps {
            fuel,
            random,
            texts,
            requests,
            steps,
        } => in_steps(fuel, random, texts, requests, steps, line),
        State::Over {
            fuel: _,
            random: _,
            texts: _,
            requests: _,
            steps: _,
        } => Err(LineFault::Bad),
    }
}

/// What the file says, where all was said and nothing stands behind it.
pub fn play_of(state: State, rest: &[u8]) -> Option<PlayFile>
    ensures { EndsWith state rest.now result }
{
    match state {
        State::Over {
            fuel,
            random,
            texts: _texts,
            requests,
            steps,
        } => {
            if rest.is_empty() {
                Some(PlayFile {
                    fuel,
                    random,
                    requests: Requests::of(requests),
                    steps: Steps::of(steps),
                })
            } else {
                None
            }
        }
        _ => None,
    }
}
