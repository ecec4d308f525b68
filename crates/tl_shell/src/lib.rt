//! The lines of a session: how they are read from an input, and what each of them asks for.
#![tactic(auto)]

mod cut;
mod error;
mod feed;
mod line;

pub use error::{FeedError, SessionError};
pub use feed::Feed;
pub use line::{ShellLine, session_line};
