//! The steps of a plan.
ghost use Rattle.std.specs.Prelude.{◌≡◌, [], ◌∷◌, List, ℕ, map, IfOk};
ghost use Rattle.tl_plan.specs.declared.planned.Planned.TheVariants.{Remove};

use crate::planned::{Planned, PlannedStep};
use std::alloc::{AllocError, Global};
use tl_path::Name;

fn removing(alloc: Global, name: Name) -> Result<PlannedStep, AllocError>
    ensures { IfOk result (λ step. step ≡ Remove name ∷ []) }
{
    let mut changes = Vec::new(alloc);
    changes.push(Planned::Remove { name })?;
    Ok(PlannedStep { changes })
}

/// The steps in which packages leave, each in a step of its own, since nothing comes.
pub fn steps_removing(alloc: Global, names: Vec<Name>) -> Result<Vec<PlannedStep>, AllocError>
    ensures { IfOk result (λ steps. steps.items ≡ map (λ name. Remove name ∷ []) names.items) }
{
    let mut steps = Vec::with_capacity(alloc, names.len())?;
    for name in names {
        steps.push(removing(alloc, name)?)?;
    }
    Ok(steps)
}
