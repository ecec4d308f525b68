//! The frame of a command: how it says, refuses, steps, gives up and ends, each stated as a part of its run.
#![tactic(auto)]

mod acted;
mod closing;
mod database;
mod ending;
mod files;
mod label;
mod opening;
mod session;
mod steps;
mod whole;

pub use acted::Acted;
pub use closing::{finish, give_up, refuse, say, stop_at_shelf};
pub use database::{canonical_database, load};
pub use ending::Ending;
pub use files::read_file;
pub use label::step_label;
pub use opening::open_step;
pub use session::Session;
pub use steps::step;
pub use tl_refusal::Refusal;
pub use whole::{begin, end, refuse_at_once};
