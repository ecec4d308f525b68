//! Why a text lists no paths.
use std::alloc::AllocError;
use thiserror::Error;
use tl_kind::What;

/// Why a text lists no paths.
#[derive(Debug, Drop, Error)]
pub enum LsrError {
    /// The text passes the limit of a database.
    #[error("more than {limit} bytes")]
    TooLarge { what: What, limit: u64 },
    /// This is the first line that can't stand where it does.
    #[error("line {line} can't stand there")]
    BadLsr { line: u32 },
    #[error("out of memory")]
    NoMemory,
}

impl From<AllocError> for LsrError {
    ghost use Rattle.std.specs.Prelude.{◌≡◌};
    ghost use Rattle.tl_lsr.specs.declared.error.LsrError.TheVariants.{NoMemory};

    ghost from_gives = { λ _ e. e ≡ NoMemory };

    fn from(_error: AllocError) -> LsrError {
        LsrError::NoMemory
    }
}
