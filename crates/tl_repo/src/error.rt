//! Why a repository isn't loaded.
use std::alloc::AllocError;
use tl_host::Failed;
use tl_kind::What;
use tl_object::LineKind;
use tl_path::Path;

/// Why a repository isn't loaded.
#[derive(Debug, Drop)]
pub enum RepoError {
    /// It has no such file.
    Absent { name: Path },
    /// The file beside the database states no digest.
    BadDigestLine,
    /// The database has another SHA-512 than the one that is stated.
    RepoDigest { want: [u8; 64], got: [u8; 64] },
    /// The database doesn't read: its first bad line, counted from 1, and what is wrong with it.
    RepoDatabase { line: u32, kind: LineKind },
    /// The database's text or its entries pass this limit.
    TooLarge { what: What, limit: u64 },
    /// A call of the repositories failed.
    ShelfFault,
    /// Memory ran out.
    NoMemory,
}

impl From<Failed> for RepoError {
    ghost use Rattle.std.specs.Prelude.{◌≡◌};
    ghost use Rattle.tl_repo.specs.declared.error.RepoError.TheVariants.{ShelfFault};

    ghost from_gives = { λ _ e. e ≡ ShelfFault };

    fn from(_failed: Failed) -> RepoError {
        RepoError::ShelfFault
    }
}

impl From<AllocError> for RepoError {
    ghost use Rattle.std.specs.Prelude.{◌≡◌};
    ghost use Rattle.tl_repo.specs.declared.error.RepoError.TheVariants.{NoMemory};

    ghost from_gives = { λ _ e. e ≡ NoMemory };

    fn from(_error: AllocError) -> RepoError {
        RepoError::NoMemory
    }
}
