//! Repositories: their databases, read and compared with the digest that is stated beside them.
#![tactic(auto)]

mod digest;
mod error;
mod file;
mod loading;

pub use error::RepoError;
pub use loading::load;
pub use tl_db::Repo;
