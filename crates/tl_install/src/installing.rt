//! `install`: packages come.
ghost use Rattle.std.specs.Prelude.{◌≤◌, ◌&&◌, length};
ghost use Rattle.tl_tree.specs.Planted.{database_text};
ghost use Rattle.tl_bring.specs.Installation.{install_of};
ghost use Rattle.tl_command.specs.Performs.{Performs};
ghost use Rattle.tl_command.specs.Runs.{over_database};
ghost use Rattle.tl_offer.specs.Offered.{counted_faults};
ghost use Rattle.tl_install.specs.Install.{install_run, planned_run};

use crate::ending::end_plan;
use crate::making::make_steps;
use std::alloc::Global;
use tl_action::Repository;
use tl_bring::{InstallAsk, plan_install};
use tl_command::{Acted, Session, load};
use tl_host::{Host, Shelf};
use tl_offer::{Offer, load_offer};
use tl_path::Name;
use tl_tree::Tree;

// Installs packages over what a command is offered.
fn install_offered<S: Shelf, H: Host>(
    alloc: Global,
    names: &[Name],
    ask: &InstallAsk,
    formats: bool,
    offer: &Offer,
    shelf: &mut S,
    tree: Tree<H>,
) -> Acted<H>
    requires { length offer.now.repos.items ≤ 16 }
    ensures { Performs (S.tells && H.tells) H.seen (λ t. planned_run (S.seen shelf.old).repositories offer.now.repos.items formats
        (install_of offer.now.pins offer.now.repos.items tree.db t names.now ask.now) tree.db t)
        0 tree.seen (counted_faults (S.seen shelf.old).faults) (counted_faults (S.seen shelf.new).faults) result.ending result.state }
{
    tree.stands();
    let mut tree = tree;
    match plan_install(alloc, &mut tree, &offer.pins, &offer.repos, names, ask) {
        Ok(steps) => make_steps(alloc, shelf, &offer.repos, &steps, formats, tree),
        Err(error) => end_plan(alloc, error, tree),
    }
}

// Installs packages of a tree.
fn install_over<S: Shelf, H: Host>(
    alloc: Global,
    names: &[Name],
    ask: &InstallAsk,
    formats: bool,
    repositories: &[Repository],
    shelf: &mut S,
    tree: Tree<H>,
) -> Acted<H>
    ensures { Performs (S.tells && H.tells) H.seen (λ t. install_run names.now ask.now formats repositories.now (S.seen shelf.old).repositories t tree.db)
        0 tree.seen (counted_faults (S.seen shelf.old).faults) (counted_faults (S.seen shelf.new).faults) result.ending result.state }
{
    match load_offer(alloc, repositories, shelf, tree) {
        Ok((offer, tree)) => install_offered(alloc, names, ask, formats, &offer, shelf, tree),
        Err(acted) => acted,
    }
}

/// Carries `install` out: the asked packages come, and what they depend on that isn't installed, each from the repository that gives it
/// by the pins. The plan's steps are made one after the other; each fetches the containers of its packages, and replaces these whole.
///
/// The refusals of the pins and the repositories come first, as `load_offer` says; then those of the plan, as `plan_install` says; then at
/// each step `TooLarge` where the database that it would leave passes a limit, and the refusals of each fetch in turn, as `fetch_into` says.
/// It stops at the repositories only where their count of faults rose.
pub fn install<S: Shelf, H: Host>(
    alloc: Global,
    names: &[Name],
    ask: &InstallAsk,
    formats: bool,
    repositories: &[Repository],
    shelf: &mut S,
    session: Session<H>,
) -> Acted<H>
    ensures { Performs (S.tells && H.tells) H.seen
        (λ tree. over_database (install_run names.now ask.now formats repositories.now (S.seen shelf.old).repositories tree) (database_text tree))
        0 session (counted_faults (S.seen shelf.old).faults) (counted_faults (S.seen shelf.new).faults) result.ending result.state }
{
    match load(alloc, session) {
        Ok(tree) => install_over(alloc, names, ask, formats, repositories, shelf, tree),
        Err(acted) => acted,
    }
}
