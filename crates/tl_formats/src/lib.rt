//! What a command of steps says last of the formats that have to be made anew.
#![tactic(auto)]

mod ending;

pub use ending::{before, end};
