//! The effective patterns of a source: the automatic ones, and its own with their variables replaced.
#![tactic(auto)]

mod error;
mod patterns;
mod section;
mod setting;
mod wanted;

pub use error::AutoError;
pub use patterns::effective;
pub use section::Section;
pub use tl_path::Platforms;
