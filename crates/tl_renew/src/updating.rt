//! The plan by which packages are updated.
ghost use Rattle.std.specs.Prelude.{◌≡◌, ◌≤◌, ◌++◌, ℕ, List, [], length, map, None, IfOk, IfErr, OnOk};
ghost use Rattle.std.specs.Str.{bytes_eq};
ghost use Rattle.indexmap.specs.IndexSet.{insert_all};
ghost use Rattle.tl_model.specs.Seen.{Told};
ghost use Rattle.tl_db.specs.Entries.{entry_of};
ghost use Rattle.tl_depend.specs.Needed.{tree_platforms};
ghost use Rattle.tl_pin.specs.Candidates.{view_entry};
ghost use Rattle.tl_coming.specs.Asked.{Answers, IsAsked, IsCausedBy, tree_in};
ghost use Rattle.tl_coming.specs.Made.{AreChanges};
ghost use Rattle.tl_coming.specs.Planning.{plan_or_fault};
ghost use Rattle.tl_coming.specs.Refused.{IsWantedFault};
ghost use Rattle.tl_coming.specs.declared.part.PlanPart.TheVariants.{Remove};
ghost use Rattle.tl_renew.specs.Sets.{HaveSame};
ghost use Rattle.tl_renew.specs.Updating.{asked_absent, dropped_names, left_names, unasked_names, update_fault, update_names, update_of, update_plan};

use crate::ask::UpdateAsk;
use crate::unasked::{auto_installed, auto_removed};
use crate::updated::renewed_names;
use indexmap::IndexSet;
use std::alloc::{AllocError, Global};
use tl_bring::{push_arrivals, refuse_protected};
use tl_coming::{ComingError, PlanPart, PlanStep, make_plan};
use tl_db::{Db, Repo};
use tl_depend::order;
use tl_host::Host;
use tl_path::Name;
use tl_pin::{Pins, view};
use tl_plan::tree_platforms;
use tl_tree::Tree;

// Refuses the first name that isn't installed.
fn refuse_absent(db: &Db, names: &[Name]) -> Result<(), ComingError>
    ensures ok { OnOk result (asked_absent db.now names.now ≡ None) }
    ensures fault { IfErr result (IsWantedFault (asked_absent db.now names.now)) }
{
    for name in names {
        if db.get(name).is_none() {
            return Err(ComingError::NotInstalled {
                name: name.clone()?,
            });
        }
    }
    Ok(())
}

// Refuses the first asked name that can't be updated.
fn refuse_asked(db: &Db, names: &[Name]) -> Result<(), ComingError>
    ensures ok { OnOk result (update_fault db.now names.now ≡ None) }
    ensures fault { IfErr result (IsWantedFault (update_fault db.now names.now)) }
{
    refuse_protected(names)?;
    refuse_absent(db, names)
}

// Adds some names.
fn add_all(names: &mut IndexSet<Name>, more: &[Name]) -> Result<(), AllocError>
    ensures { OnOk result (names.new.keys ≡ insert_all bytes_eq names.old.keys more.now) }
{
    for name in more {
        names.insert(name.clone()?)?;
    }
    Ok(())
}

// The names of the packages that come though no one asked for them.
fn unasked_names(
    alloc: Global,
    pins: &Pins,
    repos: &[Repo],
    db: &Db,
    view: &Db,
    platforms: &[Vec<u8>],
    ask: &UpdateAsk,
) -> Result<IndexSet<Name>, AllocError>
    requires few { length repos.now ≤ 16 }
    requires view { (name : List ℕ) → entry_of name view.now ≡ view_entry pins.now repos.now db.now name }
    requires platforms { map (λ platform. platform.items) platforms.now ≡ tree_platforms db.now }
    ensures { IfOk result (λ names. HaveSame names.keys (unasked_names pins.now repos.now db.now ask.now)) }
{
    if ask.all && ask.auto_install {
        auto_installed(
            alloc,
            pins,
            repos,
            db,
            view,
            platforms,
            ask.reinstall_forced,
        )
    } else {
        Ok(IndexSet::new(alloc))
    }
}

// The names of the packages that leave.
fn dropped_names(
    alloc: Global,
    pins: &Pins,
    repos: &[Repo],
    db: &Db,
    view: &Db,
    platforms: &[Vec<u8>],
    ask: &UpdateAsk,
) -> Result<IndexSet<Name>, AllocError>
    requires few { length repos.now ≤ 16 }
    requires view { (name : List ℕ) → entry_of name view.now ≡ view_entry pins.now repos.now db.now name }
    requires platforms { map (λ platform. platform.items) platforms.now ≡ tree_platforms db.now }
    ensures { IfOk result (λ names. HaveSame names.keys (dropped_names pins.now repos.now db.now ask.now)) }
{
    if ask.all && ask.auto_remove {
        auto_removed(alloc, pins, repos, db, view, platforms)
    } else {
        Ok(IndexSet::new(alloc))
    }
}

// The names of the packages that come, in the order in which they are installed.
fn update_names(
    alloc: Global,
    pins: &Pins,
    repos: &[Repo],
    db: &Db,
    view: &Db,
    platforms: &[Vec<u8>],
    asked: &[Name],
    ask: &UpdateAsk,
) -> Result<Vec<Name>, AllocError>
    requires few { length repos.now ≤ 16 }
    requires view { (name : List ℕ) → entry_of name view.now ≡ view_entry pins.now repos.now db.now name }
    requires platforms { map (λ platform. platform.items) platforms.now ≡ tree_platforms db.now }
    ensures { IfOk result (λ names. names.items ≡ update_names pins.now repos.now db.now asked.now ask.now) }
{
    let renewed = renewed_names(alloc, pins, repos, db, view, platforms, asked, ask)?;
    let unasked = unasked_names(alloc, pins, repos, db, view, platforms, ask)?;
    let mut names = IndexSet::new(alloc);
    add_all(&mut names, renewed.as_slice())?;
    add_all(&mut names, unasked.as_slice())?;
    order(alloc, view, &names)
}

// The names of the packages that leave, the last one that would be installed first.
fn left_names(
    alloc: Global,
    pins: &Pins,
    repos: &[Repo],
    db: &Db,
    view: &Db,
    platforms: &[Vec<u8>],
    ask: &UpdateAsk,
) -> Result<Vec<Name>, AllocError>
    requires few { length repos.now ≤ 16 }
    requires view { (name : List ℕ) → entry_of name view.now ≡ view_entry pins.now repos.now db.now name }
    requires platforms { map (λ platform. platform.items) platforms.now ≡ tree_platforms db.now }
    ensures { IfOk result (λ names. names.items ≡ left_names pins.now repos.now db.now ask.now) }
{
    let dropped = dropped_names(alloc, pins, repos, db, view, platforms, ask)?;
    let mut names = IndexSet::new(alloc);
    add_all(&mut names, dropped.as_slice())?;
    let mut ordered = order(alloc, view, &names)?;
    ordered.reverse();
    Ok(ordered)
}

// Adds the parts by which packages leave.
fn push_removals(names: Vec<Name>, plan: &mut Vec<PlanPart>) -> Result<(), AllocError>
    ensures { OnOk result (plan.new.items ≡ plan.old.items ++ map Remove names.items) }
{
    for name in names {
        plan.push(PlanPart::Remove { name })?;
    }
    Ok(())
}

// The parts of an update's plan.
fn update_plan(
    alloc: Global,
    pins: &Pins,
    repos: &[Repo],
    db: &Db,
    asked: &[Name],
    ask: &UpdateAsk,
) -> Result<Vec<PlanPart>, AllocError>
    requires { length repos.now ≤ 16 }
    ensures { IfOk result (λ plan. plan.items ≡ update_plan pins.now repos.now db.now asked.now ask.now) }
{
    let view = view(alloc, pins, repos, db)?;
    let platforms = tree_platforms(alloc, db)?;
    let left = left_names(alloc, pins, repos, db, &view, &platforms, ask)?;
    let names = update_names(alloc, pins, repos, db, &view, &platforms, asked, ask)?;
    let mut plan = Vec::new(alloc);
    push_removals(left, &mut plan)?;
    push_arrivals(pins, repos, db, &names, &mut plan)?;
    Ok(plan)
}

// The steps of an update whose asked names aren't refused.
fn update_steps<H: Host>(
    alloc: Global,
    tree: &mut Tree<H>,
    pins: &Pins,
    repos: &[Repo],
    asked: &[Name],
    ask: &UpdateAsk,
) -> Result<Vec<PlanStep>, ComingError>
    requires { length repos.now ≤ 16 }
    ensures plan { Told H.tells (Answers (λ steps. steps.items) result
        (plan_or_fault repos.now tree.old.db (tree_in tree.old) (update_plan pins.now repos.now tree.old.db asked.now ask.now))) }
    ensures changes { IfOk result (λ steps. AreChanges repos.now tree.old.db steps.items) }
    ensures asked { IsAsked H.tells tree.old tree.new }
    ensures cause { IfErr result (IsCausedBy tree.old tree.new) }
{
    let plan = update_plan(alloc, pins, repos, tree.db(), asked, ask)?;
    make_plan(alloc, tree, repos, plan)
}

/// The steps in which packages are updated: of the installed ones those that have a candidate of a greater revision, all of them or the
/// asked ones and their binary parts, with the binary parts of these that aren't installed. Where all are asked for, what a candidate of
/// an installed collection names comes too, with what that reaches, unless it was removed though the installed collection names it; and
/// what an installed collection names leaves where no repository gives it, with its binary parts. `UpdateAsk` can leave these out. What
/// leaves stands first, in the reverse order of `tl_depend::order`, then what comes in this order. A step ends wherever nothing that came
/// so far touches a file of a package behind it.
///
/// `Protected` at the first asked name that the tree keeps for itself, else `NotInstalled` at the first that isn't installed, else
/// `BadExecute`, `Reserved`, `Clash`, `Owned`, `TooLarge` of `Files`, `Occupied`, each at the first package in the order of the plan and
/// there at its first execute or its least path. It takes time in proportion to n log n, for n entries, depends, paths that come, files
/// of installed packages and names of the tree, which it walks once where something comes.
pub fn plan_update<H: Host>(
    alloc: Global,
    tree: &mut Tree<H>,
    pins: &Pins,
    repos: &[Repo],
    asked: &[Name],
    ask: &UpdateAsk,
) -> Result<Vec<PlanStep>, ComingError>
    requires { length repos.now ≤ 16 }
    ensures plan { Told H.tells (Answers (λ steps. steps.items) result (update_of pins.now repos.now tree.old.db (tree_in tree.old) asked.now ask.now)) }
    ensures changes { IfOk result (λ steps. AreChanges repos.now tree.old.db steps.items) }
    ensures asked { IsAsked H.tells tree.old tree.new }
    ensures cause { IfErr result (IsCausedBy tree.old tree.new) }
{
    match refuse_asked(tree.db(), asked) {
        Ok(()) => update_steps(alloc, tree, pins, repos, asked, ask),
        Err(fault) => Err(fault),
    }
}
