//! Pins: which repository gives which packages, and the view of all repositories that follows.
#![tactic(auto)]

mod change;
mod globs;
mod line;
mod offers;
mod pins;
mod views;

pub use globs::{PinGlobs, is_pin_glob};
pub use line::PinLine;
pub use offers::candidate;
pub use pins::{Pins, PinsError};
pub use views::{view, view_entry};
