//! The trusted edge: a folder of real files as a host, folders as a shelf, and standard input as a source. They tell nothing but their
//! counts.
#![tactic(auto)]

mod below;
mod failure;
mod fits;
mod folder;
mod host;
mod kept;
mod listing;
mod lock;
mod making;
mod names;
mod place;
mod shelf;
mod source;
mod stands;
mod touched;
mod walk;

pub use failure::{Changes, Doing, Failure, OneLine};
pub use host::FolderHost;
pub use shelf::FolderShelf;
pub use source::StdSource;
