//! Why a backup isn't made, listed or brought back.
use std::alloc::AllocError;
use tl_journal::HostFault;
use tl_kind::What;
use tl_path::{Name, Path};

/// Why a backup isn't made, listed or brought back.
#[derive(Debug, Drop)]
pub enum BackupError {
    /// No package of this name is installed.
    NotInstalled { name: Name },
    /// The package's file isn't there.
    FileMissing { path: Path },
    /// A file, a frame or the number of files passes this limit.
    TooLarge { what: What, limit: u64 },
    /// A call of the host failed.
    HostFault,
    /// Memory ran out.
    NoMemory,
}

impl From<AllocError> for BackupError {
    ghost use Rattle.std.specs.Prelude.{◌≡◌};
    ghost use Rattle.tl_backup.specs.declared.error.BackupError.TheVariants.{NoMemory};

    ghost from_gives = { λ _ e. e ≡ NoMemory };

    fn from(_error: AllocError) -> BackupError {
        BackupError::NoMemory
    }
}

impl From<HostFault> for BackupError {
    ghost use Rattle.std.specs.Prelude.{◌≡◌};
    ghost use Rattle.tl_backup.specs.declared.error.BackupError.TheVariants.{HostFault};

    ghost from_gives = { λ _ e. e ≡ HostFault };

    fn from(_fault: HostFault) -> BackupError {
        BackupError::HostFault
    }
}
