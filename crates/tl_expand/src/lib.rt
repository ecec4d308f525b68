//! The entries that a source stands for, over an index of files.
#![tactic(auto)]

mod choice;
mod entries;
mod files;
mod part;

pub use choice::Stamp;
pub use entries::expand;
pub use tl_auto::{AutoError, Platforms};
