//! Loaded repositories.

use crate::db::Db;
use tl_path::Tag;

/// A repository whose database is loaded.
#[derive(Drop)]
pub struct Repo {
    /// Its number among the repositories that were given.
    pub number: u32,
    /// The tag under which it was given.
    pub tag: Tag,
    /// Its entries.
    pub db: Db,
}
