// Where words fail to be a command.

/// The ways in which words fail to be a command.
#[derive(Clone, Copy, Debug, PartialEq, Eq)]
pub enum WordKind {
    /// There is no root.
    Root,
    /// An option that isn't known, that doesn't go with the action, or that is needed and isn't there.
    Option,
    /// A flag with a value, or a value that is missing, empty or a repository's tag for the second time.
    Value,
    /// A word or a number past its limits.
    Number,
    /// No action, or one that isn't known.
    Action,
    /// An operand that isn't a name.
    Name,
    /// An operand that is of another form, missing or too many.
    Operand,
    /// Too few or too many repositories.
    Repository,
}

/// Words aren't a command.
#[derive(Clone, Copy, Debug, PartialEq, Eq)]
pub enum WordsError {
    /// The words' first fault.
    BadWords {
        /// The word it stands at, counted from 0, or the number of words.
        at: u32,
        /// What fails there.
        kind: WordKind,
    },
    /// No memory for the command.
    NoMemory,
}
