//! Why no settings were read.
ghost use Rattle.std.specs.Prelude.{◌≡◌};
ghost use Rattle.fastly_toml.specs.declared.fault.SettingsFault.TheVariants.{OutOfMemory};
ghost use Rattle.fastly_toml.specs.Kinds.{kind_name};
ghost use Rattle.fastly_toml.specs.Reading.{fault_of};

use edge_outside::IoFault;
use std::alloc::AllocError;
use thiserror::Error;

/// What is wrong with settings. Of several kinds the first in this order is told.
#[derive(Clone, Copy, Debug, PartialEq, Eq, Error)]
pub enum SettingsKind {
    /// The text is no TOML.
    #[error("not-toml")]
    NotToml,
    /// A backend isn't a table, or has no `url`.
    #[error("missing-url")]
    MissingUrl,
    /// A `url` isn't `http://` or `https://` with a host, and maybe a port and a path.
    #[error("bad-url")]
    BadUrl,
    /// `local_server`, one of its tables, a store or an entry of a store isn't what it has to be.
    #[error("bad-store")]
    BadStore,
    /// A file of `format = "json"` isn't a JSON object of texts.
    #[error("bad-file")]
    BadFile,
}

impl SettingsKind {
    /// The kind in one word.
    pub fn name(&self) -> &'static str
        ensures { result.now ≡ kind_name self.now }
    {
        match self {
            SettingsKind::NotToml => "not-toml",
            SettingsKind::MissingUrl => "missing-url",
            SettingsKind::BadUrl => "bad-url",
            SettingsKind::BadStore => "bad-store",
            SettingsKind::BadFile => "bad-file",
        }
    }
}

/// Why no settings were read.
#[derive(Clone, Copy, Debug, PartialEq, Eq, Error)]
pub enum SettingsFault {
    /// They are bad.
    #[error("settings: {0}")]
    Bad(SettingsKind),
    /// A file that they name wasn't read, and the files' count of faults says so.
    #[error("read fault")]
    ReadFault,
    /// No memory was found.
    #[error("out of memory")]
    OutOfMemory,
}

impl From<AllocError> for SettingsFault {
    ghost from_gives = { λ _ fault. fault ≡ OutOfMemory };

    fn from(_: AllocError) -> Self {
        SettingsFault::OutOfMemory
    }
}

impl From<IoFault> for SettingsFault {
    ghost from_gives = { λ read fault. fault ≡ fault_of read };

    fn from(fault: IoFault) -> Self {
        match fault {
            IoFault::Failed => SettingsFault::ReadFault,
            IoFault::OutOfMemory => SettingsFault::OutOfMemory,
        }
    }
}
