//! Entries of the package database as values.
#![tactic(auto)]

mod copy;
mod file_paths;
mod form;
mod gathered;
mod gathered_paths;
mod late;
mod lists;
mod object;
mod paths;
mod rising;

pub use copy::{Copied, copies};
pub use form::is_fact_key;
pub use gathered::Gathered;
pub use gathered_paths::GatheredPaths;
pub use lists::{BinList, DocFileList, Facts, Texts};
pub use object::{BinFiles, Container, DocFile, DocFiles, Fact, Files, Object};
pub use paths::{Paths, PathsIter};
pub use rising::{Keyed, place_for};
