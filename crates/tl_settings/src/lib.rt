//! Commands on the settings of an installed tree.
#![tactic(auto)]

mod pins;
mod setting;

pub use pins::pinning;
pub use setting::option;
