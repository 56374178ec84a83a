//! Settings as values.
use cache_types::Octets;
use std::collections::BTreeMap;

/// Texts or bytes by their names.
pub type Texts = BTreeMap<Octets, Octets>;

/// Where a backend is: the host, `:` and the port; and whether it is asked by HTTPS.
#[derive(Debug, Drop)]
pub struct Backend {
    pub address: Octets,
    pub https: bool,
}

/// The backends and stores of a service, by their names.
#[derive(Drop)]
pub struct Settings {
    pub backends: BTreeMap<Octets, Backend>,
    pub dictionaries: BTreeMap<Octets, Texts>,
    pub configs: BTreeMap<Octets, Texts>,
    pub secrets: BTreeMap<Octets, Texts>,
    pub kv: BTreeMap<Octets, Texts>,
}
