//! What an update is asked.

/// How packages are asked to be updated.
#[derive(Clone, Copy)]
pub struct UpdateAsk {
    /// Whether all installed packages are asked for. Without this nothing comes or leaves for the collections of the tree.
    pub all: bool,
    /// Whether what the candidates of installed collections name comes too.
    pub auto_install: bool,
    /// Whether what no repository gives and an installed collection names leaves.
    pub auto_remove: bool,
    /// Whether packages come again that were removed though an installed collection names them.
    pub reinstall_forced: bool,
}
