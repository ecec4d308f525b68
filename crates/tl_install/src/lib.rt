//! The command that installs packages, and the steps of a plan by which packages come.
#![tactic(auto)]

mod ending;
mod fetches;
mod installing;
mod labels;
mod left;
mod limits;
mod making;
mod parts;

pub use ending::end_plan;
pub use installing::install;
pub use making::make_steps;
