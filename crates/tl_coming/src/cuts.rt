//! The steps of a plan.
ghost use Rattle.std.specs.Prelude.{◌≡◌, ◌++◌, ◌∷◌, [], ℕ, List, drop, if◌then◌else◌, nat_lt, IfOk, OnOk};
ghost use Rattle.std.specs.List.{flat_map};
ghost use Rattle.tl_entry.specs.declared.object.Object.{Object};
ghost use Rattle.tl_plan.specs.Plans.{is_any_touching};
ghost use Rattle.tl_coming.specs.Cuts.{plan_cuts};
ghost use Rattle.tl_coming.specs.Lasts.{AreLast};
ghost use Rattle.tl_coming.specs.Parts.{files_with, paths_with};
ghost use Rattle.tl_coming.specs.declared.part.PlanPart.{PlanPart};

use crate::lasts::Lasts;
use crate::part::{PlanPart, PlanStep, part_entry};
use std::alloc::{AllocError, Global};
use std::mem;
use tl_db::{Db, Repo};
use tl_path::Path;
use tl_touch::listed_paths;

// The greatest number of a part with a file that touches one of some paths.
fn last_of(lasts: &Lasts, paths: &[Path]) -> usize
    ensures { (db : List Object) (plan : List PlanPart) → AreLast db plan lasts.now → (least : ℕ)
        → nat_lt least result ≡ is_any_touching paths.now (flat_map (files_with db) (drop least plan)) }
{
    let mut last: usize = 0;
    for path in paths {
        last = last.max(lasts.last_touching(path));
    }
    last
}

// The paths that come with a part.
fn coming_paths(alloc: Global, repos: &[Repo], part: &PlanPart) -> Result<Vec<Path>, AllocError>
    ensures { IfOk result (λ paths. paths.items ≡ paths_with repos.now part.now) }
{
    match part_entry(repos, part) {
        Some(entry) => listed_paths(alloc, entry),
        None => Ok(Vec::new(alloc)),
    }
}

// The greatest number of a part with a file that touches a path that comes with a part.
fn last_touched(
    alloc: Global,
    repos: &[Repo],
    lasts: &Lasts,
    part: &PlanPart,
) -> Result<usize, AllocError>
    ensures { IfOk result (λ last. (db : List Object) (plan : List PlanPart) → AreLast db plan lasts.now → (least : ℕ)
        → nat_lt least last ≡ is_any_touching (paths_with repos.now part.now) (flat_map (files_with db) (drop least plan))) }
{
    let paths = coming_paths(alloc, repos, part)?;
    Ok(last_of(lasts, &paths))
}

// Adds a part to those of the next step, and ends the step with it where it is the last.
fn push_part(
    alloc: Global,
    steps: &mut Vec<PlanStep>,
    parts: &mut Vec<PlanPart>,
    part: PlanPart,
    is_last: bool,
) -> Result<(), AllocError>
    ensures steps { OnOk result (steps.new.items ≡ (if is_last then steps.old.items ++ (parts.old.items ++ part ∷ []) ∷ [] else steps.old.items)) }
    ensures parts { OnOk result (parts.new.items ≡ (if is_last then [] else parts.old.items ++ part ∷ [])) }
{
    parts.push(part)?;
    if !is_last {
        return Ok(());
    }
    let parts = mem::replace(parts, Vec::new(alloc));
    steps.push(PlanStep { parts })?;
    Ok(())
}

/// The steps of a plan: it is cut at each place at or before which nothing comes that touches a file of an installed package after it.
/// It takes time in proportion to the paths that come and the files of the installed packages.
pub fn plan_cuts(
    alloc: Global,
    repos: &[Repo],
    db: &Db,
    plan: &[PlanPart],
) -> Result<Vec<PlanStep>, AllocError>
    ensures { IfOk result (λ steps. steps.items ≡ plan_cuts repos.now db.now plan.now) }
{
    let lasts = Lasts::of(alloc, db, plan)?;
    let mut steps = Vec::new(alloc);
    let mut parts = Vec::new(alloc);
    let mut last: usize = 0;
    for (place, part) in plan.iter().enumerate() {
        let next = last_touched(alloc, repos, &lasts, part)?;
        let copy = part.copy()?;
        last = last.max(next);
        push_part(alloc, &mut steps, &mut parts, copy, last <= place + 1)?;
    }
    Ok(steps)
}
