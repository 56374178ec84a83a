//! Reads the lines that a batch file alone has.

ghost use Rattle.std.specs.Prelude.{◌≡◌};
ghost use Rattle.edge_words.specs.Reading.{Gives};
ghost use Rattle.batch_files.specs.Reading.{limit_in, workers_in};

use edge_words::{LineFault, read_number};
use play_files::word_behind;

/// The workers of a batch.
const MOST_WORKERS: u64 = 16;

/// How long each guest may take.
pub fn limit_line(line: &[u8]) -> Result<u64, LineFault>
    ensures { Gives (λ limit. limit) result (limit_in line.now) }
{
    let word = word_behind(b"limit", line)?;
    match read_number(word) {
        Some(limit) => Ok(limit),
        None => Err(LineFault::Bad),
    }
}

/// On how many workers they run.
pub fn workers_line(line: &[u8]) -> Result<u64, LineFault>
    ensures { Gives (λ workers. workers) result (workers_in line.now) }
{
    let word = word_behind(b"workers", line)?;
    match read_number(word) {
        Some(workers) => {
            if 1 <= workers && workers <= MOST_WORKERS {
                Ok(workers)
            } else {
                Err(LineFault::Bad)
            }
        }
        None => Err(LineFault::Bad),
    }
}
