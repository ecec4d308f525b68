//! `restore`: which backups there are, and a package that is brought back from one.
#![tactic(auto)]

mod faults;
mod listing;
mod reading;
mod restoring;
mod returning;

pub use restoring::restore;
