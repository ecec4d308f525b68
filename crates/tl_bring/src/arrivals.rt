//! The parts of a plan by which packages come from the repositories that give them, and the refusals of asked names.
ghost use Rattle.std.specs.Prelude.{◌≡◌, ◌≤◌, ◌++◌, length, None, IfOk, IfErr, OnOk};
ghost use Rattle.tl_coming.specs.Refused.{IsWantedFault};
ghost use Rattle.tl_bring.specs.Installation.{arrival, arrival_from, arrivals, asked_protected, asked_unknown};

use std::alloc::{AllocError, Global};
use tl_coming::{ComingError, PlanPart};
use tl_db::{Db, Repo};
use tl_path::Name;
use tl_pin::{Pins, candidate};
use tl_plan::is_protected;

/// Refuses the first name that the tree keeps for itself.
pub fn refuse_protected(names: &[Name]) -> Result<(), ComingError>
    ensures ok { OnOk result (asked_protected names.now ≡ None) }
    ensures fault { IfErr result (IsWantedFault (asked_protected names.now)) }
{
    for name in names {
        if is_protected(name) {
            return Err(ComingError::Protected {
                name: name.clone()?,
            });
        }
    }
    Ok(())
}

/// Refuses the first name that no repository gives.
pub fn refuse_unknown(pins: &Pins, repos: &[Repo], names: &[Name]) -> Result<(), ComingError>
    requires { length repos.now ≤ 16 }
    ensures ok { OnOk result (asked_unknown pins.now repos.now names.now ≡ None) }
    ensures fault { IfErr result (IsWantedFault (asked_unknown pins.now repos.now names.now)) }
{
    for name in names {
        if candidate(pins, repos, name).is_none() {
            return Err(ComingError::UnknownPackage {
                name: name.clone()?,
            });
        }
    }
    Ok(())
}

// The part by which a package comes from the repository at a place.
fn arrival_from(replaced: &Db, name: &Name, repo: u32) -> Result<PlanPart, AllocError>
    ensures { IfOk result (λ part. part ≡ arrival_from replaced.now name.now repo) }
{
    let is_replaced = replaced.get(name).is_some();
    let name = name.clone()?;
    if is_replaced {
        Ok(PlanPart::Update { name, repo })
    } else {
        Ok(PlanPart::Install { name, repo })
    }
}

// The part by which a package comes.
fn arrival(
    pins: &Pins,
    repos: &[Repo],
    replaced: &Db,
    name: &Name,
) -> Result<Option<PlanPart>, AllocError>
    requires { length repos.now ≤ 16 }
    ensures { IfOk result (λ part. part ≡ arrival pins.now repos.now replaced.now name.now) }
{
    match candidate(pins, repos, name) {
        Some((place, _)) => Ok(Some(arrival_from(replaced, name, place)?)),
        None => Ok(None),
    }
}

/// Adds the parts by which packages of some names come, each from the repository that gives it; one that none gives is passed over.
/// Such a part is an update where `replaced` has an entry of the name.
pub fn push_arrivals(
    pins: &Pins,
    repos: &[Repo],
    replaced: &Db,
    names: &[Name],
    plan: &mut Vec<PlanPart>,
) -> Result<(), AllocError>
    requires { length repos.now ≤ 16 }
    ensures { OnOk result (plan.new.items ≡ plan.old.items ++ arrivals pins.now repos.now replaced.now names.now) }
{
    for name in names {
        if let Some(part) = arrival(pins, repos, replaced, name)? {
            plan.push(part)?;
        }
    }
    Ok(())
}
