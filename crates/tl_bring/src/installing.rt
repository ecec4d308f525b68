//! The plan by which packages are installed.
ghost use Rattle.std.specs.Prelude.{◌≡◌, ◌≤◌, length, None, IfOk, IfErr, OnOk};
ghost use Rattle.tl_model.specs.Seen.{Told};
ghost use Rattle.tl_coming.specs.Asked.{Answers, IsAsked, IsCausedBy, tree_in};
ghost use Rattle.tl_coming.specs.Made.{AreChanges};
ghost use Rattle.tl_coming.specs.Planning.{plan_or_fault};
ghost use Rattle.tl_coming.specs.Refused.{IsWantedFault};
ghost use Rattle.tl_bring.specs.Installation.{install_fault, install_of, install_plan};

use crate::arrivals::{push_arrivals, refuse_protected, refuse_unknown};
use crate::coming::{InstallAsk, install_names};
use std::alloc::{AllocError, Global};
use tl_coming::{ComingError, PlanPart, PlanStep, make_plan};
use tl_db::{Db, Repo};
use tl_host::Host;
use tl_path::Name;
use tl_pin::Pins;
use tl_tree::Tree;

// Refuses the first asked name that can't be installed.
fn refuse_asked(pins: &Pins, repos: &[Repo], names: &[Name]) -> Result<(), ComingError>
    requires { length repos.now ≤ 16 }
    ensures ok { OnOk result (install_fault pins.now repos.now names.now ≡ None) }
    ensures fault { IfErr result (IsWantedFault (install_fault pins.now repos.now names.now)) }
{
    refuse_protected(names)?;
    refuse_unknown(pins, repos, names)
}

// The parts of an installation's plan.
fn install_plan(
    alloc: Global,
    pins: &Pins,
    repos: &[Repo],
    db: &Db,
    names: &[Name],
    ask: &InstallAsk,
) -> Result<Vec<PlanPart>, AllocError>
    requires { length repos.now ≤ 16 }
    ensures { IfOk result (λ plan. plan.items ≡ install_plan pins.now repos.now db.now names.now ask.now) }
{
    let coming = install_names(alloc, pins, repos, db, names, ask)?;
    let mut plan = Vec::new(alloc);
    push_arrivals(pins, repos, &Db::new(alloc), &coming, &mut plan)?;
    Ok(plan)
}

// The steps of an installation whose asked names aren't refused.
fn install_steps<H: Host>(
    alloc: Global,
    tree: &mut Tree<H>,
    pins: &Pins,
    repos: &[Repo],
    names: &[Name],
    ask: &InstallAsk,
) -> Result<Vec<PlanStep>, ComingError>
    requires { length repos.now ≤ 16 }
    ensures plan { Told H.tells (Answers (λ steps. steps.items) result
        (plan_or_fault repos.now tree.old.db (tree_in tree.old) (install_plan pins.now repos.now tree.old.db names.now ask.now))) }
    ensures changes { IfOk result (λ steps. AreChanges repos.now tree.old.db steps.items) }
    ensures asked { IsAsked H.tells tree.old tree.new }
    ensures cause { IfErr result (IsCausedBy tree.old tree.new) }
{
    let plan = install_plan(alloc, pins, repos, tree.db(), names, ask)?;
    make_plan(alloc, tree, repos, plan)
}

/// The steps in which packages are installed where these are asked to be: what the asked ones reach in the view, each that a repository
/// gives and that isn't installed, in the order of `tl_depend::order`; less of it, or asked ones again, as `InstallAsk` says. A step ends
/// wherever nothing that came so far touches a file of a package that the rest of the plan brings again.
///
/// `Protected` at the first asked name that the tree keeps for itself, else `UnknownPackage` at the first that no repository gives, else
/// `BadExecute`, `Reserved`, `Clash`, `Owned`, `TooLarge` of `Files`, `Occupied`, each at the first package in the order of the plan and
/// there at its first execute or its least path. It takes time in proportion to n log n, for n entries, depends, paths that come, files
/// of installed packages and names of the tree, which it walks once where something comes.
pub fn plan_install<H: Host>(
    alloc: Global,
    tree: &mut Tree<H>,
    pins: &Pins,
    repos: &[Repo],
    names: &[Name],
    ask: &InstallAsk,
) -> Result<Vec<PlanStep>, ComingError>
    requires { length repos.now ≤ 16 }
    ensures plan { Told H.tells (Answers (λ steps. steps.items) result (install_of pins.now repos.now tree.old.db (tree_in tree.old) names.now ask.now)) }
    ensures changes { IfOk result (λ steps. AreChanges repos.now tree.old.db steps.items) }
    ensures asked { IsAsked H.tells tree.old tree.new }
    ensures cause { IfErr result (IsCausedBy tree.old tree.new) }
{
    match refuse_asked(pins, repos, names) {
        Ok(()) => install_steps(alloc, tree, pins, repos, names, ask),
        Err(fault) => Err(fault),
    }
}
