//! The package database: its entries by name, read and written.
#![tactic(auto)]

mod canonical;
mod db;
mod fault;
mod installation;
mod options;
mod read;
mod repo;
mod write;

pub use canonical::canonical_text;
pub use db::{Db, Entries};
pub use fault::DbError;
pub use options::{OptionError, TreeOption};
pub use read::read_db;
pub use repo::Repo;
pub use tl_kind::What;
pub use write::write_db;
