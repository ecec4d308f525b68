//! Commands that read the master of a tree and change nothing.
#![tactic(auto)]

mod expanding;
mod faults;

pub use expanding::expand;
