//! Why a text is no source.
ghost use Rattle.std.specs.Prelude.{◌≡◌};
ghost use Rattle.tl_srctext.specs.declared.error.LineFault.TheVariants as faults;
ghost use Rattle.tl_srctext.specs.declared.error.SourceError.TheVariants as errors;

use std::alloc::{AllocError, AllocFailed};
use thiserror::Error;
use tl_kind::{SourceKind, What};

/// Why a text is no source.
#[derive(Debug, Drop, Error)]
pub enum SourceError {
    /// The first bad line, counted from 1, and how it is bad. Within a line the first of `Utf8`, `Key`, `Value`, `TooLong` and the
    /// key's own kind counts.
    #[error("line {line} is bad")]
    BadSource { line: u32, kind: SourceKind },
    /// The text passes the limit of a source.
    #[error("more than {limit} bytes")]
    TooLarge { what: What, limit: u64 },
    #[error("out of memory")]
    NoMemory,
}

/// Why a line doesn't read.
#[derive(Clone, Copy)]
pub enum LineFault {
    NoMemory,
    Bad(SourceKind),
}

impl LineFault {
    ghost use Rattle.tl_srctext.specs.Steps.{line_error};

    /// The error of the line with this number.
    pub(crate) fn at(self, line: u32) -> SourceError
        ensures { result ≡ line_error line self }
    {
        match self {
            LineFault::NoMemory => SourceError::NoMemory,
            LineFault::Bad(kind) => SourceError::BadSource { line, kind },
        }
    }
}

impl From<AllocError> for SourceError {
    ghost from_gives = { λ _ e. e ≡ errors.NoMemory };

    fn from(_error: AllocError) -> SourceError {
        SourceError::NoMemory
    }
}

impl From<AllocError> for LineFault {
    ghost from_gives = { λ _ e. e ≡ faults.NoMemory };

    fn from(_error: AllocError) -> LineFault {
        LineFault::NoMemory
    }
}

impl<T: Drop> From<AllocFailed<T>> for LineFault {
    ghost from_gives = { λ _ e. e ≡ faults.NoMemory };

    fn from(_error: AllocFailed<T>) -> LineFault {
        LineFault::NoMemory
    }
}
