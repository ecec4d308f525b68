//! The master of a tree: its sources, its paths and its marks, and the entries that it stands for.
#![tactic(auto)]

mod error;
mod expanded;
mod files;
mod leaves;
mod listing;
mod loading;
mod marks;
mod master;
mod names;
mod sources;

pub use error::MasterError;
pub use master::{MarkedSource, Master};
