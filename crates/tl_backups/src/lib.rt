//! Commands on backups.
#![tactic(auto)]

mod backing;
mod faults;

pub use backing::backup;
pub use faults::{fault_ends, give_up_asked, refuse_asked};
