//! Dependencies: the names that depends stand for, what follows from them, what needs a name, and the order of packages.
#![tactic(auto)]

mod names;
mod needing;
mod ordering;
mod reach;
mod words;

pub use names::{add_depends, add_on_platforms};
pub use needing::{is_meta, needed_by};
pub use ordering::order;
pub use reach::needs;
