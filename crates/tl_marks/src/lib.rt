//! Marks: when each path of a master last changed, both ways.
#![tactic(auto)]

mod line;
mod marks;
mod reading;
mod word;
mod writing;

pub use marks::{MarkedPath, MarkedPlatforms, Marks, MarksError};
