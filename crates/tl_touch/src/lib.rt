//! Paths in order, by which those are found that touch another one, and the paths that entries list.
#![tactic(auto)]

mod listing;
mod repeated;
mod set;

pub use listing::{count_touching, has_touching, listed_paths};
pub use repeated::Listed;
pub use set::PathSet;
