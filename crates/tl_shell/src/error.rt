//! Why a session's line isn't read.
use std::alloc::AllocError;
use tl_host::Failed;
use tl_kind::What;
use tl_text::QuoteError;
use tl_words::{WordKind, WordsError};

/// Why no line is taken from the input.
#[derive(Clone, Copy, Debug, PartialEq, Eq)]
pub enum FeedError {
    /// The line, or the input up to its end, passes this limit.
    TooLarge { what: What, limit: u64 },
    /// A call of the input failed.
    InputFault,
    /// Memory ran out.
    NoMemory,
}

impl From<Failed> for FeedError {
    ghost use Rattle.std.specs.Prelude.{◌≡◌};
    ghost use Rattle.tl_shell.specs.declared.error.FeedError.TheVariants.{InputFault};

    ghost from_gives = { λ _ e. e ≡ InputFault };

    fn from(_failed: Failed) -> FeedError {
        FeedError::InputFault
    }
}

impl From<AllocError> for FeedError {
    ghost use Rattle.std.specs.Prelude.{◌≡◌};
    ghost use Rattle.tl_shell.specs.declared.error.FeedError.TheVariants.{NoMemory};

    ghost from_gives = { λ _ e. e ≡ NoMemory };

    fn from(_error: AllocError) -> FeedError {
        FeedError::NoMemory
    }
}

/// Why a line asks for nothing that a session knows.
#[derive(Clone, Copy, Debug, PartialEq, Eq)]
pub enum SessionError {
    /// The double quote at this place has no partner.
    BadQuote {
        at: u32,
    },
    /// The words' first fault.
    BadWords {
        /// The word it stands at, counted from 0, or the number of words.
        at: u32,
        /// What fails there.
        kind: WordKind,
    },
    /// Memory ran out.
    NoMemory,
}

impl From<QuoteError> for SessionError {
    ghost use Rattle.std.specs.Prelude.{◌≡◌};
    ghost use Rattle.tl_shell.specs.Asked.{of_quote};

    ghost from_gives = { λ q e. e ≡ of_quote q };

    fn from(error: QuoteError) -> SessionError {
        match error {
            QuoteError::BadQuote { at } => SessionError::BadQuote { at },
            QuoteError::NoMemory => SessionError::NoMemory,
        }
    }
}

impl From<WordsError> for SessionError {
    ghost use Rattle.std.specs.Prelude.{◌≡◌};
    ghost use Rattle.tl_shell.specs.Asked.{of_words};

    ghost from_gives = { λ w e. e ≡ of_words w };

    fn from(error: WordsError) -> SessionError {
        match error {
            WordsError::BadWords { at, kind } => SessionError::BadWords { at, kind },
            WordsError::NoMemory => SessionError::NoMemory,
        }
    }
}
