//! The plan by which packages leave.
ghost use Rattle.std.specs.Prelude.{◌≡◌, List, ℕ, Ok, None, IfOk, OnOk, IfErr, map};
ghost use Rattle.tl_depend.specs.Needed.{tree_platforms};
ghost use Rattle.tl_plan.specs.Removal.{protected_fault, absent_fault, needed_fault, removal_fault, removal_of, removal_order, IsNoPlan};
ghost use Rattle.tl_plan.specs.Plans.{plan_steps};
ghost use Rattle.tl_plan.specs.Wanted.{AreWanted};
ghost use Rattle.tl_plan.specs.declared.planned.Planned.TheVariants.{Remove};

use crate::asked::{Wanted, is_protected};
use crate::error::PlanError;
use crate::planned::PlannedStep;
use crate::platforms::tree_platforms;
use crate::steps::steps_removing;
use std::alloc::{AllocError, Global};
use tl_db::Db;
use tl_depend::{needed_by, order};
use tl_host::Host;
use tl_path::Name;
use tl_tree::Tree;

// Refuses the first name that the tree keeps for itself.
fn refuse_protected(names: &[Name]) -> Result<(), PlanError>
    ensures ok { OnOk result (protected_fault names.now ≡ None) }
    ensures fault { IfErr result (IsNoPlan (protected_fault names.now)) }
{
    for name in names {
        if is_protected(name) {
            return Err(PlanError::Protected {
                name: name.clone()?,
            });
        }
    }
    Ok(())
}

// Refuses the first name that isn't installed.
fn refuse_absent(db: &Db, names: &[Name]) -> Result<(), PlanError>
    ensures ok { OnOk result (absent_fault db.now names.now ≡ None) }
    ensures fault { IfErr result (IsNoPlan (absent_fault db.now names.now)) }
{
    for name in names {
        if db.get(name).is_none() {
            return Err(PlanError::NotInstalled {
                name: name.clone()?,
            });
        }
    }
    Ok(())
}

// Refuses the first name that a collection or a scheme needs which isn't asked for.
fn refuse_needed(db: &Db, names: &[Name], wanted: &Wanted) -> Result<(), PlanError>
    requires { AreWanted db.now names.now wanted.now }
    ensures ok { OnOk result (needed_fault db.now names.now names.now ≡ None) }
    ensures fault { IfErr result (IsNoPlan (needed_fault db.now names.now names.now)) }
{
    for name in names {
        if let Some(by) = wanted.needing(db, name) {
            return Err(PlanError::Needed {
                name: name.clone()?,
                by: by.clone()?,
            });
        }
    }
    Ok(())
}

// Refuses a removal where it has a fault.
fn refuse_removal(db: &Db, names: &[Name], force: bool, wanted: &Wanted) -> Result<(), PlanError>
    requires { AreWanted db.now names.now wanted.now }
    ensures ok { OnOk result (removal_fault db.now names.now force ≡ None) }
    ensures fault { IfErr result (IsNoPlan (removal_fault db.now names.now force)) }
{
    refuse_protected(names)?;
    refuse_absent(db, names)?;
    if force {
        return Ok(());
    }
    refuse_needed(db, names, wanted)
}

// The names that leave, the last one that would be installed first.
fn removal_order(
    alloc: Global,
    db: &Db,
    wanted: &Wanted,
    platforms: &[Vec<u8>],
) -> Result<Vec<Name>, AllocError>
    requires { map (λ platform. platform.items) platforms.now ≡ tree_platforms db.now }
    ensures { IfOk result (λ order. (names : List (List ℕ)) → AreWanted db.now names wanted.now → order.items ≡ removal_order db.now names) }
{
    let leaving = wanted.leaving(alloc, db, platforms)?;
    let mut names = order(alloc, db, &leaving)?;
    names.reverse();
    Ok(names)
}

// The steps of a removal that has no fault.
fn removal_steps(
    alloc: Global,
    db: &Db,
    wanted: &Wanted,
    platforms: &[Vec<u8>],
) -> Result<Vec<PlannedStep>, AllocError>
    requires { map (λ platform. platform.items) platforms.now ≡ tree_platforms db.now }
    ensures { IfOk result (λ steps. (names : List (List ℕ)) → AreWanted db.now names wanted.now
        → steps.items ≡ plan_steps db.now (map Remove (removal_order db.now names))) }
{
    let order = removal_order(alloc, db, wanted, platforms)?;
    steps_removing(alloc, order)
}

fn removal(
    alloc: Global,
    db: &Db,
    names: &[Name],
    force: bool,
) -> Result<Vec<PlannedStep>, PlanError>
    ensures steps { IfOk result (λ steps. removal_of db.now names.now force ≡ Ok steps.items) }
    ensures fault { IfErr result (IsNoPlan (removal_fault db.now names.now force)) }
{
    let platforms = tree_platforms(alloc, db)?;
    let wanted = Wanted::of(alloc, db, names, &platforms)?;
    refuse_removal(db, names, force, &wanted)?;
    match removal_steps(alloc, db, &wanted, &platforms) {
        Ok(steps) => Ok(steps),
        Err(_) => Err(PlanError::NoMemory),
    }
}

/// The steps in which packages leave where these are asked to: the asked ones; what an asked collection names and no other collection or
/// scheme does, unless it is one itself; and the installed binary parts of all these. Nothing leaves whose name the tree keeps for
/// itself. Schemes leave before collections and these before all others, in the reverse order of their bytes, each in a step of its own.
///
/// `Protected` at the first asked name that the tree keeps for itself, else `NotInstalled` at the first that isn't installed, else,
/// without `force`, `Needed` at the first that a collection or a scheme needs which isn't asked for. It takes time in proportion to the
/// entries, their depends and what leaves; no call of the host is made.
pub fn plan_remove<H: Host>(
    alloc: Global,
    tree: &Tree<H>,
    names: &[Name],
    force: bool,
) -> Result<Vec<PlannedStep>, PlanError>
    ensures steps { IfOk result (λ steps. removal_of tree.now.db names.now force ≡ Ok steps.items) }
    ensures fault { IfErr result (IsNoPlan (removal_fault tree.now.db names.now force)) }
{
    removal(alloc, tree.db(), names, force)
}
