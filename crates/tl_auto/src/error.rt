//! Why a source has no effective patterns.
ghost use Rattle.std.specs.Prelude.{◌≡◌};
ghost use Rattle.tl_auto.specs.Faults.{fault_of};

use std::alloc::AllocError;
use tl_pattern::PatternError;

/// Why a source has no effective patterns. `line` is that of the first pattern that has a fault.
#[derive(Clone, Copy, Debug, PartialEq, Eq)]
pub enum AutoError {
    /// A variable isn't set, or its name doesn't end.
    UnsetVariable { line: u32 },
    /// The text hasn't the form of its kind.
    BadPath { line: u32 },
    /// The grammar reads no regular expression from the text, or it nests too deep.
    Syntax { line: u32 },
    /// The regular expression would become too large.
    Size { line: u32 },
    /// Memory ran out.
    NoMemory,
}

impl From<AllocError> for AutoError {
    ghost use Rattle.std.specs.Prelude.{◌≡◌};
    ghost use Rattle.tl_auto.specs.declared.error.AutoError.TheVariants.{NoMemory};

    ghost from_gives = { λ _ e. e ≡ NoMemory };

    fn from(_error: AllocError) -> AutoError {
        AutoError::NoMemory
    }
}

// What is said of a line's text that is no pattern.
pub(crate) fn fault_of(error: PatternError, line: u32) -> AutoError
    ensures { result ≡ fault_of error line }
{
    match error {
        PatternError::BadPath => AutoError::BadPath { line },
        PatternError::Syntax => AutoError::Syntax { line },
        PatternError::Size => AutoError::Size { line },
        PatternError::NoMemory => AutoError::NoMemory,
    }
}
