//! The copying of a repository that may change meanwhile: which file is read next, and what comes of it. No device is known here.
#![tactic(auto)]

mod copying;
mod demand;
mod digest;
mod entries;
mod error;
mod naming;
mod stage;

pub use copying::{Copying, Seen, Want};
pub use demand::{Demand, DemandList};
pub use error::CopyError;
pub use stage::Manifest;
