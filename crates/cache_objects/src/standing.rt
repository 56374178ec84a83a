//! One object as it stands.

use cache_bodies::Body;

/// What is known of one object.
#[derive(Drop)]
pub struct Standing {
    /// The guest that made it.
    pub guest: u64,
    /// Its declared length in bytes.
    pub declared: Option<u64>,
    /// The entry of its last insertion or update, whose terms count.
    pub renewed: u64,
    pub softened: bool,
    pub purged: bool,
    pub finished: bool,
    pub abandoned: bool,
    /// What is written of it.
    pub body: Body,
}
