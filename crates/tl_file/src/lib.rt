//! Files as values: a path and the bytes that it holds.
#![tactic(auto)]

mod file;

pub use file::{Bytes, FileBytes, FileList};
