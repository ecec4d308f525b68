//! What a command reads of the pins of a tree and of repositories.
#![tactic(auto)]

mod offers;
mod pins;
mod repos;

pub use offers::{Offer, load_offer};
pub use pins::load_pins;
