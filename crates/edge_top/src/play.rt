//! The work of `play`.

ghost use Rattle.std.specs.Prelude.{◌≡◌, ◌∷◌, ◌<◌, ◌≤◌, [], List, Ok, IsTrue, IfOk, IsErrOf, length, map};
ghost use Rattle.schedule_play.specs.Schedule.{are_steps_of};
ghost use Rattle.edge_imports.specs.Links as linking;
ghost use Rattle.edge_outside.specs.Faults.{Rose};
ghost use Rattle.edge_outside.specs.Files.{Read, IsRead};
ghost use Rattle.edge_outside.specs.Made.{Made};
ghost use Rattle.edge_top.specs.Play.{IsPlayedBy, OnRun, Plays, PlaysRun, Settles};
ghost use Rattle.edge_top.specs.Several.{ReadsThen};

use crate::exit::Exit;
use crate::script::MOST_ENTRIES;
use cache_core::CoreCache;
use cache_types::Octets;
use edge_imports::Linked;
use edge_modules::load;
use edge_outside::{Files, NoLink, read_all};
use fastly_toml::{Settings, read_settings};
use guest_play::guests_journal;
use guest_run::{Service, each_guest_has_a_program};
use module_machine::Prepared;
use play_files::{PlayFile, read_play};
use std::alloc::{AllocError, Global};

/// The names of the files of a play.
#[derive(Clone, Copy)]
pub struct PlayNames<'a> {
    /// That of the module that its guests run.
    pub guest: &'a str,
    pub settings: &'a str,
    pub run: &'a str,
}

/// 32 bytes, as an array.
fn seed_of(bytes: &[u8]) -> [u8; 32]
    requires { length bytes.now ≡ 32 }
    ensures { result ≡ bytes.now }
{
    let mut seed = [0; 32];
    seed.copy_from_slice(bytes);
    seed
}

/// The journal of the guests of a module for the requests of a file.
fn played(
    alloc: Global,
    linked: &Linked,
    settings: &Settings,
    file: &PlayFile,
) -> Result<Octets, AllocError>
    requires linked { linking.linked linked.now.whole ≡ Ok linked.now.links }
    requires random { length file.now.random ≡ 32 }
    requires steps { IsTrue (are_steps_of (length file.now.requests) file.now.steps) }
    ensures journal { IfOk result (IsPlayedBy linked.now settings.now file.now) }
    ensures some { IfOk result (λ text. 0 < length text) }
{
    each_guest_has_a_program();
    let prepared = Prepared::new(alloc, linked.valid())?;
    let seed = seed_of(file.random.bytes());
    // No clock is read here, so no limit is reached. Every call that a module may import stands.
    let service = match Service::new(
        alloc,
        linked,
        &prepared,
        settings,
        file.fuel,
        u64::MAX,
        seed,
    ) {
        Ok(service) => service,
        Err(_) => return Err(AllocError),
    };
    let cache = CoreCache::new(alloc, MOST_ENTRIES);
    let (requests, steps) = (file.requests.items(), file.steps.items());
    guests_journal(alloc, cache, &service, requests, steps, &mut NoLink::new())
}

/// The journal of the run that the bytes spell, with guests of a module and its settings, or why there is none.
fn play_run(
    alloc: Global,
    linked: &Linked,
    settings: &Settings,
    bytes: &[u8],
) -> Result<Octets, Exit>
    requires linked { linking.linked linked.now.whole ≡ Ok linked.now.links }
    ensures gives { PlaysRun linked.now settings.now bytes.now result }
    ensures some { IfOk result (λ text. 0 < length text) }
{
    match read_play(alloc, bytes) {
        Ok(file) => match played(alloc, linked, settings, &file) {
            Ok(text) => Ok(text),
            Err(_) => Err(Exit::OutOfMemory),
        },
        Err(fault) => Err(Exit::from(fault)),
    }
}

/// The same with the settings that a text and the files of its stores have.
fn play_settled<F: Files>(
    alloc: Global,
    linked: &Linked,
    settings: &[u8],
    bytes: &[u8],
    files: &mut F,
) -> Result<Octets, Exit>
    requires linked { linking.linked linked.now.whole ≡ Ok linked.now.links }
    ensures works { (reads : List Read) × (Made (IsRead F.reads F.content) files.old reads files.new
        × Settles settings.now (OnRun linked.now bytes.now) reads result) }
    ensures some { IfOk result (λ text. 0 < length text) }
    ensures later { F.faults files.old ≤ F.faults files.new }
    ensures no_write_fault { ¬ IsErrOf result Exit.WriteFault }
    ensures read_fault { IsErrOf result Exit.ReadFault → Rose (F.faults files.old) (F.faults files.new) }
{
    match read_settings(alloc, settings, files) {
        Ok(settings) => play_run(alloc, linked, &settings, bytes),
        Err(fault) => Err(Exit::from(fault)),
    }
}

/// The same with the module that the bytes spell.
fn play_bytes<F: Files>(
    alloc: Global,
    binary: &[u8],
    settings: &[u8],
    run: &[u8],
    files: &mut F,
) -> Result<Octets, Exit>
    ensures works { (reads : List Read) × (Made (IsRead F.reads F.content) files.old reads files.new
        × Plays (binary.now ∷ (settings.now ∷ (run.now ∷ []))) reads result) }
    ensures some { IfOk result (λ text. 0 < length text) }
    ensures later { F.faults files.old ≤ F.faults files.new }
    ensures no_write_fault { ¬ IsErrOf result Exit.WriteFault }
    ensures read_fault { IsErrOf result Exit.ReadFault → Rose (F.faults files.old) (F.faults files.new) }
{
    match load(alloc, binary) {
        Ok(linked) => play_settled(alloc, &linked, settings, run, files),
        Err(fault) => Err(Exit::from(fault)),
    }
}

/// The same with the bytes of the three files.
fn play_pieces<F: Files>(alloc: Global, pieces: &[Vec<u8>], files: &mut F) -> Result<Octets, Exit>
    requires three { length pieces.now ≡ 3 }
    ensures works { (reads : List Read) × (Made (IsRead F.reads F.content) files.old reads files.new
        × Plays (map (λ piece. piece.items) pieces.now) reads result) }
    ensures some { IfOk result (λ text. 0 < length text) }
    ensures later { F.faults files.old ≤ F.faults files.new }
    ensures no_write_fault { ¬ IsErrOf result Exit.WriteFault }
    ensures read_fault { IsErrOf result Exit.ReadFault → Rose (F.faults files.old) (F.faults files.new) }
{
    match pieces {
        [binary, settings, run] => play_bytes(alloc, binary, settings, run, files),
        _ => unreachable!(),
    }
}

/// The journal of a play, or why there is none. The three files are read first, in this order.
pub fn play_text<F: Files>(
    alloc: Global,
    names: PlayNames<'_>,
    files: &mut F,
) -> Result<Octets, Exit>
    ensures works { (reads : List Read) × (Made (IsRead F.reads F.content) files.old reads files.new
        × ReadsThen (names.entry.guest.now ∷ (names.entry.settings.now ∷ (names.entry.run.now ∷ []))) Plays reads result) }
    ensures some { IfOk result (λ text. 0 < length text) }
    ensures no_write_fault { ¬ IsErrOf result Exit.WriteFault }
    ensures read_fault { IsErrOf result Exit.ReadFault → Rose (F.faults files.old) (F.faults files.new) }
{
    match read_all(alloc, files, &[names.guest, names.settings, names.run]) {
        Ok(pieces) => play_pieces(alloc, pieces.as_slice(), files),
        Err(fault) => Err(Exit::from(fault)),
    }
}
