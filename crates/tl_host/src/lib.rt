//! The outside of the program: a volume of files with a place to say bytes, repositories, and input, each as a trait
//! whose contract says what a call does where the device tells what it holds; and the count of steps.
#![tactic(auto)]

mod file;
mod host;
mod shelf;
mod source;
mod steps;

pub use file::{FileError, read_file};
pub use host::{Failed, Host};
pub use shelf::Shelf;
pub use source::Source;
pub use steps::{Ledger, Steps, Tally};
