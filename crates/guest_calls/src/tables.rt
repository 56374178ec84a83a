//! The tables of a guest.
ghost use Rattle.std.specs.Prelude.{◌≡◌, IfOk};
ghost use Rattle.guest_calls.specs.Rows.{first_tables};

use cache_calls::CacheTables;
use cache_types::{Copied, Octets};
use edge_body::RequestHead;
use edge_http_calls::HttpTables;
use edge_stores::StoreTables;
use fastly_toml::Settings;
use std::alloc::{AllocError, Global};
use std::marker::Model;

/// Settings that all guests of a service share.
#[derive(Drop)]
pub struct SharedSettings<'a> {
    settings: &'a Settings,
}

impl<'a> Model for SharedSettings<'a> {
    ghost use Rattle.fastly_toml.specs.declared.settings.Settings.{Settings};
    ghost use Rattle.fastly_toml.specs.contracts.settings.Settings as row;

    ghost coded = { row.the_row.coded };

    ghost Value = { Settings };

    ghost view = { λ shared. shared.settings.now };
}

impl<'a> SharedSettings<'a> {
    pub fn new(settings: &'a Settings) -> SharedSettings<'a>
        ensures { result ≡ settings.now }
    {
        SharedSettings { settings }
    }

    pub fn get(&self) -> &Settings
        ensures { result.now ≡ self.now }
    {
        self.settings
    }
}

/// All that a guest has of handles and random words, by the crate that has the rows on them; the settings of its service; and
/// the request that it answers, as it came.
#[derive(Drop)]
pub struct GuestTables<'a> {
    pub http: HttpTables,
    pub cache: CacheTables,
    pub stores: StoreTables,
    pub settings: SharedSettings<'a>,
    pub request: RequestHead,
}

impl<'a> GuestTables<'a> {
    /// What a guest has when it begins to answer a request. The service's seed and the guest's index fix its random words.
    pub fn new(
        alloc: Global,
        settings: &'a Settings,
        random: [u8; 32],
        index: u64,
        head: RequestHead,
        body: Octets,
    ) -> Result<GuestTables<'a>, AllocError>
        ensures { IfOk result (λ tables. tables ≡ first_tables settings.now random index head body) }
    {
        let request = head.copy(alloc)?;
        Ok(GuestTables {
            http: HttpTables::new(alloc, head, body),
            cache: CacheTables::new(alloc),
            stores: StoreTables::new(alloc, random, index),
            settings: SharedSettings::new(settings),
            request,
        })
    }
}
