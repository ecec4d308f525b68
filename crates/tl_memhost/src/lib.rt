//! A host, a shelf and a source in memory. They tell what they hold, and fail where they are told to.
#![tactic(auto)]

mod calls;
mod changes;
mod files;
mod fill;
mod given;
mod host;
mod record;
mod shelf;
mod source;
mod stop;

pub use given::MemError;
pub use host::MemHost;
pub use shelf::MemShelf;
pub use source::MemSource;
pub use stop::{Choice, StopError};
