//! Plans: which packages come and leave, in which order and in which steps, and when that is refused. A plan changes nothing.
#![tactic(auto)]

mod asked;
mod error;
mod planned;
mod platforms;
mod removal;
mod steps;

pub use asked::{add_parts, is_protected, name_set};
pub use error::PlanError;
pub use planned::{Planned, PlannedStep};
pub use platforms::tree_platforms;
pub use removal::plan_remove;
