//! What a command reads, works out and writes, and how it ends.

ghost use Rattle.std.specs.Prelude.{◌≡◌, ◌≢◌, ◌<◌, List, Some, Ok, length, IfOk, IsErrOf};
ghost use Rattle.edge_outside.specs.Faults.{Rose};
ghost use Rattle.edge_outside.specs.Files.{Read, IsRead};
ghost use Rattle.edge_outside.specs.Made.{Made};
ghost use Rattle.edge_outside.specs.Sink.{Write, IsWrite};
ghost use Rattle.edge_top.specs.Words.{words_of};
ghost use Rattle.edge_top.specs.Command.{command_of, named};
ghost use Rattle.edge_top.specs.Does.{Works, Writes, Does};

use crate::check::check_text;
use crate::command::{Command, command_of};
use crate::exit::Exit;
use crate::load::load_text;
use crate::play::play_text;
use crate::script::script_text;
use cache_types::Octets;
use edge_outside::{Files, Link, Sink};
use std::alloc::Global;

// What the command is to write, or how it ends without that. There is no sink here, so nothing is
// written before all was read and worked out.
fn text_of<F: Files>(alloc: Global, command: Command<'_>, files: &mut F) -> Result<Octets, Exit>
    ensures works { (reads : List Read) × (Made (IsRead F.reads F.content) files.old reads files.new
        × Works (Some (named command.entry)) reads result) }
    ensures some { IfOk result (λ text. 0 < length text) }
    ensures no_write_fault { ¬ IsErrOf result Exit.WriteFault }
    ensures read_fault { IsErrOf result Exit.ReadFault → Rose (F.faults files.old) (F.faults files.new) }
{
    match command {
        Command::Script(name) => script_text(alloc, files.read(alloc, name)?.as_slice()),
        Command::Check(name) => check_text(alloc, files.read(alloc, name)?.as_slice()),
        Command::Play(names) => play_text(alloc, names, files),
        Command::Load(number) => load_text(alloc, number),
    }
}

// Writes the text in one piece.
fn write_text<K: Sink>(text: &[u8], out: &mut K) -> Exit
    requires { 0 < length text.now }
    ensures writes { (writes : List Write) × (Made (IsWrite K.writes K.content) out.old writes out.new
        × Writes (Ok text.now) writes result) }
    ensures write_fault { result ≡ Exit.WriteFault → Rose (K.faults out.old) (K.faults out.new) }
    ensures no_read_fault { result ≢ Exit.ReadFault }
{
    match out.write(text) {
        Ok(()) => Exit::Ok,
        Err(_) => Exit::WriteFault,
    }
}

/// Does what the words say. It waits for nobody, and uses no link yet.
pub fn host<F: Files, K: Sink, L: Link>(
    alloc: Global,
    words: &[String],
    files: &mut F,
    out: &mut K,
    link: &mut L,
) -> Exit
    // These reads and these writes were made, in this order and no others, and they are what the
    // command that the words are does.
    ensures does { (reads : List Read) × (writes : List Write)
        × Made (IsRead F.reads F.content) files.old reads files.new
        × Made (IsWrite K.writes K.content) out.old writes out.new
        × Does (command_of (words_of words.now)) reads writes result }

    // A fault comes only where the count of what failed rose in this call.
    ensures read_fault { result ≡ Exit.ReadFault → Rose (F.faults files.old) (F.faults files.new) }
    ensures write_fault { result ≡ Exit.WriteFault → Rose (K.faults out.old) (K.faults out.new) }

    ensures no_link { link.new ≡ link.old }
{
    match command_of(words) {
        Some(command) => match text_of(alloc, command, files) {
            Ok(text) => write_text(text.bytes(), out),
            Err(exit) => exit,
        },
        None => Exit::Usage,
    }
}
