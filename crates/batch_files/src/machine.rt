//! What the lines of a batch file said so far, and with one more.

ghost use Rattle.std.specs.Prelude.{◌≡◌};
ghost use Rattle.play_files.specs.Requests.{AreRequests};
ghost use Rattle.batch_files.specs.Machine.{seen, Asking, IsProgress, IsSound, LeadsTo, EndsWith};

use crate::batch::BatchFile;
use crate::read_line::{limit_line, workers_line};
use cache_types::Octets;
use edge_words::LineFault;
use http_front::Incoming;
use play_files::{MOST_GUESTS, Requests, fuel_line, random_line, request_line, whole_request};
use std::alloc::Global;

/// What stands before the requests.
#[derive(Drop)]
pub struct Head {
    pub fuel: u64,
    pub random: Octets,
    pub limit: u64,
    pub workers: u64,
}

/// What the lines of a batch file said so far. Each text stands with its request.
#[derive(Drop)]
pub enum State {
    Start,
    Begun,
    Fuelled {
        fuel: u64,
    },
    Drawn {
        fuel: u64,
        random: Octets,
    },
    Limited {
        fuel: u64,
        random: Octets,
        limit: u64,
    },
    Asking {
        head: Head,
        texts: Vec<Octets>,
        requests: Vec<Incoming>,
    },
    Over {
        head: Head,
        texts: Vec<Octets>,
        requests: Vec<Incoming>,
    },
}

/// A request, or the last line.
fn in_requests(
    alloc: Global,
    head: Head,
    mut texts: Vec<Octets>,
    mut requests: Vec<Incoming>,
    line: &[u8],
) -> Result<State, LineFault>
    requires { AreRequests texts.items requests.items }
    ensures { LeadsTo (Asking head texts.items) line.now result }
{
    if line == b"end".as_slice() {
        return Ok(State::Over {
            head,
            texts,
            requests,
        });
    }
    if texts.len() >= MOST_GUESTS {
        return Err(LineFault::Bad);
    }
    let text = request_line(alloc, line)?;
    requests.push(whole_request(alloc, text.bytes())?)?;
    texts.push(text)?;
    Ok(State::Asking {
        head,
        texts,
        requests,
    })
}

/// What the lines said with one more.
pub fn next_state(alloc: Global, state: State, line: &[u8]) -> Result<State, LineFault>
    requires stands { IsProgress (seen state) }
    requires sound { IsSound state }
    ensures { LeadsTo (seen state) line.now result }
{
    match state {
        State::Start => {
            if line == b"edge-batch 1".as_slice() {
                Ok(State::Begun)
            } else {
                Err(LineFault::Bad)
            }
        }
        State::Begun => Ok(State::Fuelled {
            fuel: fuel_line(line)?,
        }),
        State::Fuelled { fuel } => Ok(State::Drawn {
            fuel,
            random: random_line(alloc, line)?,
        }),
        State::Drawn { fuel, random } => Ok(State::Limited {
            fuel,
            random,
            limit: limit_line(line)?,
        }),
        State::Limited {
            fuel,
            random,
            limit,
        } => Ok(State::Asking {
            head: Head {
                fuel,
                random,
                limit,
                workers: workers_line(line)?,
            },
            texts: Vec::new(alloc),
            requests: Vec::new(alloc),
        }),
        State::Asking {
            head,
            texts,
            requests,
        } => in_requests(alloc, head, texts, requests, line),
        State::Over {
            head: _,
            texts: _,
            requests: _,
        } => Err(LineFault::Bad),
    }
}

/// What the file says, where all was said and nothing stands behind it.
pub fn batch_of(state: State, rest: &[u8]) -> Option<BatchFile>
    ensures { EndsWith state rest.now result }
{
    match state {
        State::Over {
            head,
            texts: _texts,
            requests,
        } => {
            if rest.is_empty() {
                Some(BatchFile {
                    fuel: head.fuel,
                    random: head.random,
                    limit: head.limit,
                    workers: head.workers,
                    requests: Requests::of(requests),
                })
            } else {
                None
            }
        }
        _ => None,
    }
}
