//! Commands that show what an installed tree has.
#![tactic(auto)]

mod checks;
mod dump;
mod finding;
mod offers;
mod opening;
mod packages;
mod searching;

pub use checks::check;
pub use dump::dump_tlpdb;
pub use finding::which;
pub use offers::candidates;
pub use packages::info;
pub use searching::search;
