//! Container frames and digests: an entry's text and files as one list of bytes, read whole or in pieces.
#![tactic(auto)]

mod digests;
mod error;
mod event;
mod fields;
mod gathered;
mod pieces;
mod stage;
mod step;
mod whole;

pub use digests::{check, digest_hex};
pub use error::{CheckError, FrameError};
pub use event::FrameEvent;
pub use pieces::FrameReader;
pub use whole::{Frame, read_frame, write_frame};
