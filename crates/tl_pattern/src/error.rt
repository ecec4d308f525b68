//! Why a text is no pattern.
use std::alloc::AllocError;
use thiserror::Error;
use tl_regexp::RegexpError;

/// Why a text is no pattern of its kind.
#[derive(Clone, Copy, Debug, PartialEq, Eq, Error)]
pub enum PatternError {
    /// It hasn't the form of its kind.
    #[error("not of the form of its kind")]
    BadPath,
    /// It is no regular expression, or nests too deep.
    #[error("not a regular expression")]
    Syntax,
    /// It would become too large a regular expression.
    #[error("too large a regular expression")]
    Size,
    #[error("out of memory")]
    NoMemory,
}

impl From<AllocError> for PatternError {
    ghost use Rattle.std.specs.Prelude.{◌≡◌};
    ghost use Rattle.tl_pattern.specs.declared.error.PatternError.TheVariants.{NoMemory};

    ghost from_gives = { λ _ e. e ≡ NoMemory };

    fn from(_error: AllocError) -> PatternError {
        PatternError::NoMemory
    }
}

impl From<RegexpError> for PatternError {
    ghost use Rattle.std.specs.Prelude.{◌≡◌};
    ghost use Rattle.tl_pattern.specs.Answers.{of_regexp};

    ghost from_gives = { λ fault e. e ≡ of_regexp fault };

    fn from(fault: RegexpError) -> PatternError {
        match fault {
            RegexpError::Syntax => PatternError::Syntax,
            RegexpError::Size => PatternError::Size,
            RegexpError::NoMemory => PatternError::NoMemory,
        }
    }
}
