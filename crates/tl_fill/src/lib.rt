//! Steps whose files are fetched: an open step takes the files of containers as they come.
#![tactic(auto)]

mod fetch;
mod halt;
mod sink;
mod step;

pub use fetch::Fetch;
pub use step::step_fetched;
