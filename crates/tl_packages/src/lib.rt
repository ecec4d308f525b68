//! Commands that bring and remove packages.
#![tactic(auto)]

mod added;
mod plan;
mod removing;

pub use removing::remove;
