//! Why a walk over the names of a tree ends early.
use std::alloc::AllocError;

/// Why a walk over the names of a tree ends early.
#[derive(Drop)]
pub(crate) enum WalkError {
    /// A call of the host failed.
    HostFault,
    /// Memory ran out.
    NoMemory,
}

impl From<AllocError> for WalkError {
    ghost use Rattle.std.specs.Prelude.{◌≡◌};
    ghost use Rattle.tl_publish.specs.declared.error.WalkError.TheVariants.{NoMemory};

    ghost from_gives = { λ _ e. e ≡ NoMemory };

    fn from(_error: AllocError) -> WalkError {
        WalkError::NoMemory
    }
}
