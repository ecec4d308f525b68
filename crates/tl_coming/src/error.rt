//! Why there is no plan by which packages come.
ghost use Rattle.std.specs.Prelude.{◌≡◌};

use std::alloc::AllocError;
use tl_execute::ExecuteKind;
use tl_kind::What;
use tl_path::{Name, Path};

/// Why there is no plan by which packages come.
#[derive(Debug, Drop)]
pub enum ComingError {
    /// The tree keeps this name for itself.
    Protected {
        name: Name,
    },
    /// No package of this name is installed.
    NotInstalled {
        name: Name,
    },
    /// No repository gives the package.
    UnknownPackage {
        name: Name,
    },
    /// The execute behind so many others of a package that comes doesn't read.
    BadExecute {
        name: Name,
        at: u32,
        kind: ExecuteKind,
    },
    /// A path that comes is one of those that the program keeps for itself.
    Reserved {
        path: Path,
    },
    /// Another path that comes touches a path that comes.
    Clash {
        path: Path,
        first: Name,
        second: Name,
    },
    /// A file of an installed package that stays touches a path that comes.
    Owned {
        path: Path,
        owner: Name,
    },
    /// The tree has more names than this limit.
    TooLarge {
        what: What,
        limit: u64,
    },
    /// A file of no package touches a path that comes.
    Occupied {
        path: Path,
    },
    /// A call of the host failed.
    HostFault,
    /// Memory ran out.
    NoMemory,
}

impl From<AllocError> for ComingError {
    ghost use Rattle.std.specs.Prelude.{◌≡◌};
    ghost use Rattle.tl_coming.specs.declared.error.ComingError.TheVariants.{NoMemory};

    ghost from_gives = { λ _ e. e ≡ NoMemory };

    fn from(_error: AllocError) -> ComingError {
        ComingError::NoMemory
    }
}
