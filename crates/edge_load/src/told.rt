//! The line that tells how a load went.

ghost use Rattle.std.specs.Prelude.{◌≡◌, IfOk};
ghost use Rattle.edge_load.specs.Told.{is_got, bytes_in, gots, bytes_read, load_line};

use cache_types::{Entry, Octets, Reply};
use std::alloc::{AllocError, Global};

fn is_got(reply: &Reply) -> bool
    ensures { result ≡ is_got reply.now }
{
    matches!(reply, Reply::Got { .. })
}

fn bytes_in(reply: &Reply) -> u64
    ensures { result ≡ bytes_in reply.now }
{
    match reply {
        Reply::Bytes(piece) => piece.bytes().len() as u64,
        _ => 0,
    }
}

fn gots(entries: &[Entry]) -> usize
    ensures { result ≡ gots entries.now }
{
    entries.iter().filter(|entry| is_got(&entry.reply)).count()
}

/// Replies whose bytes have no number of 64 bits find no memory.
fn bytes_read(entries: &[Entry]) -> Result<u64, AllocError>
    ensures { IfOk result (λ bytes. bytes ≡ bytes_read entries.now) }
{
    let mut bytes = 0u64;
    for entry in entries {
        bytes = bytes.checked_add(bytes_in(&entry.reply)).ok_or(AllocError)?;
    }
    Ok(bytes)
}

/// The line of a load with this number and these entries.
pub fn line_of(alloc: Global, number: u64, entries: &[Entry]) -> Result<Octets, AllocError>
    ensures { IfOk result (λ line. line ≡ load_line number entries.now) }
{
    let count = entries.len();
    let got = gots(entries);
    let bytes = bytes_read(entries)?;
    let line = format!(in alloc;
        "load {number} steps 50000 entries {count} got {got} bytes {bytes}\n"
    )?;
    Octets::of(alloc, line.as_bytes())
}
