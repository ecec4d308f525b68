//! What a command leaves.
use crate::ending::Ending;
use crate::session::Session;
use tl_host::Host;

/// How a command ended, with what it leaves.
#[derive(Drop)]
pub struct Acted<H: Host> {
    pub ending: Ending,
    /// The state between commands; or the host alone, where the state of its journal is spent: after a fault of the host.
    pub state: Result<Session<H>, H>,
}
