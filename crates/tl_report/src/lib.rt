//! Reports on packages and on a tree, as texts.
#![tactic(auto)]

mod checks;
mod claims;
mod depends;
mod duplicates;
mod error;
mod executes;
mod facts;
mod finding;
mod lines;
mod missing;
mod offers;
mod packages;
mod view;
mod walk;

pub use checks::check;
pub use error::ReportError;
pub use finding::search;
pub use offers::candidates;
pub use packages::info;
