//! Work that is split among threads, with the answer of one thread.
#![tactic(auto)]

mod digests;
mod gate;
mod parts;

pub use digests::digest_all;
pub use gate::{Gate, OpenGate};
