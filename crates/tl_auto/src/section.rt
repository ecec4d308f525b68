//! The sections of a source.

/// A section of a source's files.
#[derive(Clone, Copy, Debug, PartialEq, Eq)]
pub enum Section {
    /// The files that the package needs at work.
    Run,
    /// Its documentation.
    Doc,
    /// Its sources.
    Src,
    /// Its binaries on the platform with this number.
    Bin(u32),
}
