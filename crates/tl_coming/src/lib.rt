//! Plans by which packages come: what they are made of, when they are refused, and the steps in which they are made.
#![tactic(auto)]

mod clashes;
mod cuts;
mod entries;
mod error;
mod lasts;
mod occupied;
mod owned;
mod part;
mod planning;
mod refused;

pub use entries::refuse_reserved;
pub use error::ComingError;
pub use occupied::refuse_in_tree;
pub use owned::refuse_owned;
pub use part::{PlanPart, PlanStep, part_entry};
pub use planning::make_plan;
