use std::alloc::AllocError;
use tl_db::What;
use tl_object::LineKind;

/// Why a tree isn't loaded.
#[derive(Clone, Copy, Debug, PartialEq, Eq)]
pub enum TreeError {
    /// The database doesn't read: its first bad line, counted from 1, and what is wrong with it.
    BadDatabase { line: u32, kind: LineKind },
    /// The database's text or its entries pass this limit.
    TooLarge { what: What, limit: u64 },
    /// A call of the host failed.
    HostFault,
    /// Memory ran out.
    NoMemory,
}

/// Why a step isn't made.
#[derive(Clone, Copy, Debug, PartialEq, Eq)]
pub enum StepError {
    /// The database that it would leave passes this limit.
    TooLarge { what: What, limit: u64 },
    /// A call of the host failed.
    HostFault,
    /// Memory ran out, before the change was made stable.
    NoMemory,
}

impl From<AllocError> for StepError {
    ghost use Rattle.std.specs.Prelude.{◌≡◌};
    ghost use Rattle.tl_tree.specs.declared.error.StepError.TheVariants.{NoMemory};

    ghost from_gives = { λ _ e. e ≡ NoMemory };

    fn from(_error: AllocError) -> StepError {
        StepError::NoMemory
    }
}
