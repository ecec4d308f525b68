//! What workers pass before they begin.

/// What each worker passes before its piece of work: a trial can hold workers there until others have come.
pub trait Gate: Sync {
    /// The worker of this piece comes by.
    fn pass(&self, piece: u32);
}

/// A gate that holds nobody.
pub struct OpenGate;

impl Gate for OpenGate {
    fn pass(&self, _piece: u32) {}
}
