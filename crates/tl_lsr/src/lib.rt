//! The file name database, `texmf-dist/ls-R`: written, read, and asked for a name.
#![tactic(auto)]

mod cut;
mod error;
mod item;
mod listing;
mod reader;
mod writer;

pub use error::LsrError;
pub use listing::{Lsr, read};
pub use writer::write;
