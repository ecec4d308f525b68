//! Plans by which packages come: what is asked, what comes with it, and when that is refused.
#![tactic(auto)]

mod arrivals;
mod coming;
mod installing;

pub use arrivals::{push_arrivals, refuse_protected};
pub use coming::{InstallAsk, is_given, is_installed, may_come, with_parts};
pub use installing::plan_install;
