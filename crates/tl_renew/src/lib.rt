//! Plans by which packages are updated: what is asked, what comes and leaves with it, and when that is refused.
#![tactic(auto)]

mod ask;
mod unasked;
mod updated;
mod updating;

pub use ask::UpdateAsk;
pub use updating::plan_update;
