//! The kinds of patterns.

/// By which rule a pattern hits paths.
#[derive(Clone, Copy, Debug, PartialEq, Eq)]
pub enum PatternKind {
    /// Files directly in a folder, by a glob.
    F,
    /// All files below a folder.
    D,
    /// All files below a folder with a given name, at any depth below another.
    T,
    /// The paths that a regular expression stands for.
    R,
}
