//! Entries of the database as they are written: a text is told to be one without its values being made.
//!
//! Each function finds a piece of an entry's text at the front of a text, and gives what stands behind it. It promises that the piece is
//! the written text of some value of its form, and that each such piece is found, wherever no more of its kind stands behind it.
#![tactic(auto)]

mod bins;
mod boxes;
mod docs;
mod entry;
mod facts;
mod first;
mod lines;
mod middle;
mod paths;

pub use entry::{Written, written_entry};
