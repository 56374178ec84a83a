//! The settings of a service: its backends and stores, as a `fastly.toml` has them below `local_server`.
//!
//! `read_settings` reads the text by the TOML crate, judges it, reads the files that its stores name, each once, and makes
//! the maps. To the layer above: what is wrong is told by the first kind that stands (`specs/Kinds.antt`), nothing is read
//! where one of the first four does, the files are read in one order (`specs/Files.antt`), and the maps are those that the
//! document and the bytes of its files make (`specs/Maps.antt`).
#![tactic(auto)]

mod document;
mod fault;
mod files;
mod kinds;
mod laws;
mod lists;
mod maps;
mod pieces;
mod read;
mod settings;
mod stores;
mod texts;
mod urls;

pub use fault::{SettingsFault, SettingsKind};
pub use laws::a_url_tells_one_backend;
pub use read::read_settings;
pub use settings::{Backend, Settings, Texts};
