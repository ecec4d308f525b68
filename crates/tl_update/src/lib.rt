//! The command that updates packages.
#![tactic(auto)]

mod updating;

pub use updating::update;
