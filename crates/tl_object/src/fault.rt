//! Why an entry doesn't read.
ghost use Rattle.std.specs.Prelude.{◌≡◌};
ghost use Rattle.tl_object.specs.declared.fault.LineFault.TheVariants.{NoMemory};
ghost use Rattle.tl_object.specs.declared.fault.ObjectError.TheVariants as errors;

use std::alloc::{AllocError, AllocFailed};

/// What is wrong with a line of an entry. Within a line the first of `Missing`, `Utf8`, `TooLong`, `Key`, `Value` or
/// `File`, and `Repeated` counts.
#[derive(Clone, Copy, Debug, PartialEq, Eq)]
pub enum LineKind {
    /// The first line that counts isn't the entry's name.
    Missing,
    /// The line isn't UTF-8.
    Utf8,
    /// No line begins with such a key.
    Key,
    /// The value hasn't the form that its key wants.
    Value,
    /// A key that stands once, a platform, a path within a section or, in a database, a name stands there again.
    Repeated,
    /// A file's line stands behind no section, or hasn't its form.
    File,
    /// The value has more than 65,536 bytes.
    TooLong,
}

/// Why an entry doesn't read.
#[derive(Clone, Copy, Debug, PartialEq, Eq)]
pub enum ObjectError {
    /// The first bad line, counted from 1, and what is wrong with it.
    BadObject { line: u32, kind: LineKind },
    NoMemory,
}

/// Why a line doesn't read.
#[derive(Clone, Copy)]
pub(crate) enum LineFault {
    NoMemory,
    Bad(LineKind),
}

impl LineFault {
    ghost use Rattle.tl_object.specs.Steps.{fault_at};

    /// The fault of the line with this number.
    pub(crate) fn at(self, line: u32) -> ObjectError
        ensures { result ≡ fault_at line self }
    {
        match self {
            LineFault::NoMemory => ObjectError::NoMemory,
            LineFault::Bad(kind) => ObjectError::BadObject { line, kind },
        }
    }
}

impl From<AllocError> for ObjectError {
    ghost from_gives = { λ _ e. e ≡ errors.NoMemory };

    fn from(_error: AllocError) -> ObjectError {
        ObjectError::NoMemory
    }
}

impl From<AllocError> for LineFault {
    ghost from_gives = { λ _ e. e ≡ NoMemory };

    fn from(_error: AllocError) -> LineFault {
        LineFault::NoMemory
    }
}

impl<T: Drop> From<AllocFailed<T>> for LineFault {
    ghost from_gives = { λ _ e. e ≡ NoMemory };

    fn from(_error: AllocFailed<T>) -> LineFault {
        LineFault::NoMemory
    }
}
