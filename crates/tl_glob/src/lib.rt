//! Globs: texts that stand for others.
#![tactic(auto)]

mod glob;
mod matching;

pub use glob::{Glob, GlobError};
