//! Which names and paths of some entries are claimed twice.
#![tactic(auto)]

mod claim;
mod claims;
mod names;

pub use claim::{Claim, Clash};
pub use claims::clash_in;
pub use names::twice_in;
