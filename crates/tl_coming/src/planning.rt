//! The plan that is made of parts.
ghost use Rattle.std.specs.Prelude.{◌≡◌, [], IfOk, IfErr, OnOk, None, map};
ghost use Rattle.std.specs.List.{AllByRecursion, IsDistinct};
ghost use Rattle.std.specs.Str.{bytes_eq};
ghost use Rattle.indexmap.specs.IndexSet.{insert_all};
ghost use Rattle.tl_model.specs.Seen.{Told};
ghost use Rattle.tl_model.specs.Volume.{same_name};
ghost use Rattle.tl_coming.specs.Asked.{Answers, IsAsked, IsCausedBy, IsFaultOf, tree_in};
ghost use Rattle.tl_coming.specs.Made.{AreChanges, IsGiven};
ghost use Rattle.tl_coming.specs.Parts.{part_name};
ghost use Rattle.tl_coming.specs.Planning.{plan_entries, plan_fault, plan_or_fault};
ghost use Rattle.tl_coming.specs.Refused.{entries_fault};

use crate::cuts::plan_cuts;
use crate::error::ComingError;
use crate::part::{PlanPart, PlanStep, part_entry};
use crate::refused::refuse_coming;
use indexmap::IndexSet;
use std::alloc::{AllocError, Global};
use tl_db::Repo;
use tl_host::Host;
use tl_object::Object;
use tl_path::Name;
use tl_tree::Tree;

// The names of the packages that a plan speaks of.
fn names_of(alloc: Global, plan: &[PlanPart]) -> Result<IndexSet<Name>, AllocError>
    ensures { IfOk result (λ names. names.keys ≡ insert_all bytes_eq [] (map part_name plan.now)) }
{
    let mut names = IndexSet::new(alloc);
    for part in plan {
        names.insert(part.name().clone()?)?;
    }
    Ok(names)
}

// The entries of the packages that come with a plan.
fn entries_of<'r>(
    alloc: Global,
    repos: &'r [Repo],
    plan: &[PlanPart],
) -> Result<Vec<&'r Object>, AllocError>
    ensures { IfOk result (λ entries. map (λ entry. entry.now) entries.items ≡ plan_entries repos.now plan.now) }
{
    let mut entries = Vec::new(alloc);
    for part in plan {
        if let Some(entry) = part_entry(repos, part) {
            entries.push(entry)?;
        }
    }
    Ok(entries)
}

// Refuses a plan, as `refuse_coming` says.
fn refuse_plan<H: Host>(
    alloc: Global,
    tree: &mut Tree<H>,
    repos: &[Repo],
    plan: &[PlanPart],
) -> Result<(), ComingError>
    ensures ok { Told H.tells (OnOk result (plan_fault repos.now tree.old.db (tree_in tree.old) plan.now ≡ None)) }
    ensures fault { Told H.tells (IfErr result (IsFaultOf (plan_fault repos.now tree.old.db (tree_in tree.old) plan.now))) }
    ensures entries { OnOk result (entries_fault tree.old.db (map part_name plan.now) (plan_entries repos.now plan.now) ≡ None) }
    ensures asked { IsAsked H.tells tree.old tree.new }
    ensures cause { IfErr result (IsCausedBy tree.old tree.new) }
{
    let names = names_of(alloc, plan)?;
    let entries = entries_of(alloc, repos, plan)?;
    refuse_coming(alloc, tree, &names, &entries)
}

/// The steps of a plan over a tree, each a change of the entries that those before it leave, unless the plan is refused: `BadExecute`,
/// `Reserved`, `Clash`, `Owned`, `TooLarge` of `Files`, `Occupied`, in this order, each at the first package in the order of the plan
/// and there at its first execute or its least path. It takes time in proportion to n log n, for n paths that come, files of installed
/// packages and names of the tree.
pub fn make_plan<H: Host>(
    alloc: Global,
    tree: &mut Tree<H>,
    repos: &[Repo],
    plan: Vec<PlanPart>,
) -> Result<Vec<PlanStep>, ComingError>
    requires named { IsDistinct same_name (map part_name plan.items) }
    requires given { AllByRecursion (IsGiven repos.now) plan.items }
    ensures plan { Told H.tells (Answers (λ steps. steps.items) result (plan_or_fault repos.now tree.old.db (tree_in tree.old) plan.items)) }
    ensures changes { IfOk result (λ steps. AreChanges repos.now tree.old.db steps.items) }
    ensures asked { IsAsked H.tells tree.old tree.new }
    ensures cause { IfErr result (IsCausedBy tree.old tree.new) }
{
    match refuse_plan(alloc, tree, repos, &plan) {
        Ok(()) => Ok(plan_cuts(alloc, repos, tree.db(), &plan)?),
        Err(fault) => Err(fault),
    }
}
