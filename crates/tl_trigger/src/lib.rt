//! The formats that have to be made anew where a database changes.
#![tactic(auto)]

mod changed;
mod formats;
mod known;
mod lines;
mod stale_formats;

pub use lines::format_lines;
pub use stale_formats::stale;
