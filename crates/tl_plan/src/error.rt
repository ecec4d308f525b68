//! Why there is no plan.
ghost use Rattle.std.specs.Prelude.{◌≡◌};

use std::alloc::AllocError;
use tl_path::Name;

/// Why there is no plan.
#[derive(Debug, Drop)]
pub enum PlanError {
    /// The tree keeps this name for itself.
    Protected { name: Name },
    /// No package of this name is installed.
    NotInstalled { name: Name },
    /// A collection or a scheme that stays needs the package.
    Needed { name: Name, by: Name },
    NoMemory,
}

impl From<AllocError> for PlanError {
    ghost use Rattle.std.specs.Prelude.{◌≡◌};
    ghost use Rattle.tl_plan.specs.declared.error.PlanError.TheVariants.{NoMemory};

    ghost from_gives = { λ _ e. e ≡ NoMemory };

    fn from(_error: AllocError) -> PlanError {
        PlanError::NoMemory
    }
}
