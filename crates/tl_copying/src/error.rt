//! Why a database isn't copied.
ghost use Rattle.std.specs.Prelude.{◌≡◌};
ghost use Rattle.tl_copying.specs.declared.error.CopyError.TheVariants.{NoMemory};

use std::alloc::AllocError;
use tl_kind::What;
use tl_object::LineKind;
use tl_path::Name;
use tl_text::Text;

/// Why a database whose digest agreed isn't copied, in the order in which it is looked for.
#[derive(Debug, Drop)]
pub enum CopyError {
    /// The database doesn't read: its first bad line, counted from 1, and what is wrong with it.
    RepoDatabase { line: u32, kind: LineKind },
    /// The containers have another format; an empty one where the database names none.
    ContainerFormat { format: Text },
    /// A package has a size or a digest of a container, and not both.
    NoContainer { name: Name },
    /// The database, its entries or a container pass this limit.
    TooLarge { what: What, limit: u64 },
    /// Memory ran out.
    NoMemory,
}

impl From<AllocError> for CopyError {
    ghost from_gives = { λ _ e. e ≡ NoMemory };

    fn from(_error: AllocError) -> CopyError {
        CopyError::NoMemory
    }
}
