/// The host failed.
#[derive(Clone, Copy, Debug, PartialEq, Eq)]
pub struct HostFault;

/// A host that is handed back with what went wrong. Its volume is to be recovered again.
#[derive(Drop)]
pub struct Lost<H, E> {
    /// The host.
    pub host: H,
    /// What went wrong.
    pub fault: E,
}
