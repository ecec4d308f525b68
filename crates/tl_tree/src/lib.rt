//! The installed tree: its database, and the steps that change it whole or not at all.
//!
//! A step is made by the journal: from its commit on each stop leaves the tree with the whole change, before it the tree
//! without it.
#![tactic(auto)]

mod arrange;
mod change;
mod contents;
mod entries;
mod error;
mod leaving;
mod load;
mod look;
mod own;
mod stage;
mod step;
mod tree;
mod waiting;

pub use change::{Change, Part, PartList, PathList};
pub use contents::ContentsError;
pub use error::{StepError, TreeError};
pub use load::canonical_database;
pub use step::Step;
pub use tree::Tree;
