//! Kinds of faults and limited quantities that several crates answer, each with the name by which a refusal says it.
#![tactic(auto)]

mod kinds;
mod quantity;

pub use kinds::{EditKind, RegexpKind, SourceKind};
pub use quantity::What;
