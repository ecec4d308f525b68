//! The text of a journal: the records of a body, how they are written and read, and what a volume stands for.
#![tactic(auto)]

mod head;
mod names;
mod slot;

pub use head::Head;
pub use names::{is_outside, is_target, target};
pub use slot::Slot;
