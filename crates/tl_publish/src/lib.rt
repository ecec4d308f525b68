//! Commands that make files of a tree from all of it.
#![tactic(auto)]

mod error;
mod gathering;
mod listing;
mod lowest;
mod owning;
mod walk;

pub use listing::lsr;
