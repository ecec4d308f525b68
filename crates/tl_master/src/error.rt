//! Why there is no master, or no entry of it.
ghost use Rattle.std.specs.Prelude.{◌≡◌};

use std::alloc::AllocError;
use tl_kind::{RegexpKind, SourceKind, What};
use tl_path::Name;

/// Why a tree has no master, or a master no such entries. Lines are counted from 1.
#[derive(Debug, Drop)]
pub enum MasterError {
    /// The marks don't read: their first bad line.
    BadMarks {
        line: u32,
    },
    /// The source of a package doesn't read: its first bad line, and what is wrong with it.
    BadSource {
        name: Name,
        line: u32,
        kind: SourceKind,
    },
    /// A pattern of a source has a variable without a value.
    UnsetVariable {
        name: Name,
        line: u32,
    },
    /// A pattern of a source hasn't the form of its kind.
    BadPath {
        name: Name,
        line: u32,
    },
    /// A regular expression of a source is refused.
    Regexp {
        name: Name,
        line: u32,
        kind: RegexpKind,
    },
    /// There is no such source.
    NoSource,
    /// A quantity passes its limit.
    TooLarge {
        what: What,
        limit: u64,
    },
    /// A call of the host failed.
    HostFault,
    /// Memory ran out.
    NoMemory,
}

impl From<AllocError> for MasterError {
    ghost use Rattle.std.specs.Prelude.{◌≡◌};
    ghost use Rattle.tl_master.specs.declared.error.MasterError.TheVariants.{NoMemory};

    ghost from_gives = { λ _ e. e ≡ NoMemory };

    fn from(_error: AllocError) -> MasterError {
        MasterError::NoMemory
    }
}
