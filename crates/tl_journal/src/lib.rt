//! A journal: changes of a volume that a stop leaves whole or not at all.
//!
//! `Journal::recover` makes a volume what it stands for and gives a `Clean` journal. `stage` begins a change, whose
//! records `stage_remove`, `stage_write` and `begin_write` add; from the return of `commit` on each stop leaves the change
//! made; `apply` carries it out, and `close` gives a `Clean` journal again. Each state owns the host; each change spends it.
//! No call takes memory but `Clean::read_file`.
#![tactic(auto)]

mod body;
mod calls;
mod fields;
mod gate;
mod lost;
mod names;
mod recovery;
mod redo;
mod resume;
mod staging;
mod states;
mod writing;

pub use lost::{HostFault, Lost};
pub use recovery::{Journal, Recovered};
pub use resume::RecoverError;
pub use states::{Applied, Clean, Committed, Staging};
pub use writing::Writing;
