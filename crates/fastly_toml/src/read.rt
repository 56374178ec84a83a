//! The one public call: a text and its files become settings.
ghost use Rattle.std.specs.Prelude.{◌≡◌, ◌≤◌, List, map, IfOk, IsErrOf};
ghost use Rattle.std.specs.Result.{result_map_both};
ghost use Rattle.edge_outside.specs.declared.fault.IoFault.TheVariants as io;
ghost use Rattle.edge_outside.specs.Faults.{Rose};
ghost use Rattle.edge_outside.specs.Files.{Read, IsRead, pieces_read};
ghost use Rattle.edge_outside.specs.InOrder.{InOrder};
ghost use Rattle.edge_outside.specs.Made.{Made};
ghost use Rattle.toml.specs.View.{table_view};
ghost use Rattle.fastly_toml.specs.Files.{files_of};
ghost use Rattle.fastly_toml.specs.Kinds.{judged};
ghost use Rattle.fastly_toml.specs.Reading.{Gives, GivesOf, Makes};

use crate::document::document_of;
use crate::fault::{SettingsFault, SettingsKind};
use crate::files::files_of;
use crate::kinds::kind_of;
use crate::maps::settings_of;
use crate::settings::Settings;
use edge_outside::{Files, IoFault, read_all};
use std::alloc::{AllocError, Global};
use toml::Table;

/// The document that a text is, or the first kind of what is wrong with it.
fn judged(alloc: Global, text: &[u8]) -> Result<Result<Table, SettingsKind>, AllocError>
    ensures { IfOk result (λ found. result_map_both table_view (λ kind. kind) found ≡ judged text.now) }
{
    match document_of(alloc, text)? {
        Some(document) => match kind_of(&document) {
            Some(kind) => Ok(Err(kind)),
            None => Ok(Ok(document)),
        },
        None => Ok(Err(SettingsKind::NotToml)),
    }
}

/// The bytes of the files that a document names. Each is read once, in their order, up to the first read that fails.
fn read_files<F: Files>(
    alloc: Global,
    document: &Table,
    files: &mut F,
) -> Result<Vec<Vec<u8>>, IoFault>
    ensures reads { (reads : List Read) × (Made (IsRead F.reads F.content) files.old reads files.new
        × InOrder (λ fault. fault ≡ io.OutOfMemory) (files_of (table_view document.now)) reads (pieces_read result)) }
    ensures later { F.faults files.old ≤ F.faults files.new }
    ensures fault { IsErrOf result IoFault.Failed → Rose (F.faults files.old) (F.faults files.new) }
{
    match files_of(alloc, document) {
        Ok(names) => read_all(alloc, files, &names),
        Err(_) => Err(IoFault::OutOfMemory),
    }
}

/// The settings of a document and the bytes of its files.
fn made(alloc: Global, document: &Table, pieces: &[Vec<u8>]) -> Result<Settings, SettingsFault>
    ensures { Makes (table_view document.now) (map (λ piece. piece.items) pieces.now) result }
{
    match settings_of(alloc, document, pieces) {
        Ok(Some(settings)) => Ok(settings),
        Ok(None) => Err(SettingsFault::Bad(SettingsKind::BadFile)),
        Err(_) => Err(SettingsFault::OutOfMemory),
    }
}

/// The settings of a document with none of the first four kinds.
fn read_good<F: Files>(
    alloc: Global,
    document: &Table,
    files: &mut F,
) -> Result<Settings, SettingsFault>
    ensures works { (reads : List Read) × (Made (IsRead F.reads F.content) files.old reads files.new × GivesOf (table_view document.now) reads result) }
    ensures later { F.faults files.old ≤ F.faults files.new }
    ensures read_fault { IsErrOf result SettingsFault.ReadFault → Rose (F.faults files.old) (F.faults files.new) }
{
    match read_files(alloc, document, files) {
        Ok(pieces) => made(alloc, document, &pieces),
        Err(fault) => Err(SettingsFault::from(fault)),
    }
}

/// The settings that a text and the files that it names have, or the first kind of what is wrong. Where the text itself
/// is bad no file is read.
pub fn read_settings<F: Files>(
    alloc: Global,
    text: &[u8],
    files: &mut F,
) -> Result<Settings, SettingsFault>
    ensures works { (reads : List Read) × (Made (IsRead F.reads F.content) files.old reads files.new × Gives text.now reads result) }
    ensures later { F.faults files.old ≤ F.faults files.new }
    ensures read_fault { IsErrOf result SettingsFault.ReadFault → Rose (F.faults files.old) (F.faults files.new) }
{
    match judged(alloc, text) {
        Ok(Ok(document)) => read_good(alloc, &document, files),
        Ok(Err(kind)) => Err(SettingsFault::Bad(kind)),
        Err(_) => Err(SettingsFault::OutOfMemory),
    }
}
