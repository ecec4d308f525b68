//! The index of files: paths in order, each with a leaf, and what patterns choose among them.
#![tactic(auto)]

mod folders;
mod fronts;
mod hit;
mod index;
mod key;
mod places;
mod select;
mod trees;

pub use hit::{Hit, Leaf};
pub use index::Index;
