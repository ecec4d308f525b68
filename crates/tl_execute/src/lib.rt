//! Executes: the lines of an entry that say what its maps, formats and hyphenation patterns are.
#![tactic(auto)]

mod execute;
mod format;
mod hyphen;
mod list;
mod map;
mod part;
mod read;
mod value;

pub use execute::{Execute, ExecuteError, ExecuteKind, MapKind, Texts};
