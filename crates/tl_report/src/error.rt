//! Why there is no report.
use std::alloc::{AllocError, AllocFailed};
use tl_journal::HostFault;

/// Why there is no report.
#[derive(Clone, Copy, Debug, PartialEq, Eq)]
pub enum ReportError {
    /// No package has this name.
    UnknownPackage,
    /// A call of the host failed.
    HostFault,
    /// Memory ran out.
    NoMemory,
}

impl From<AllocError> for ReportError {
    ghost use Rattle.std.specs.Prelude.{◌≡◌};
    ghost use Rattle.tl_report.specs.declared.error.ReportError.TheVariants.{NoMemory};

    ghost from_gives = { λ _ e. e ≡ NoMemory };

    fn from(_error: AllocError) -> ReportError {
        ReportError::NoMemory
    }
}

impl<T: Drop> From<AllocFailed<T>> for ReportError {
    ghost use Rattle.std.specs.Prelude.{◌≡◌};
    ghost use Rattle.tl_report.specs.declared.error.ReportError.TheVariants.{NoMemory};

    ghost from_gives = { λ _ e. e ≡ NoMemory };

    fn from(_error: AllocFailed<T>) -> ReportError {
        ReportError::NoMemory
    }
}

impl From<HostFault> for ReportError {
    ghost use Rattle.std.specs.Prelude.{◌≡◌};
    ghost use Rattle.tl_report.specs.declared.error.ReportError.TheVariants.{HostFault as Fault};

    ghost from_gives = { λ _ e. e ≡ Fault };

    fn from(_error: HostFault) -> ReportError {
        ReportError::HostFault
    }
}
