//! `update`: packages come in the place of older ones.
ghost use Rattle.std.specs.Prelude.{◌≤◌, ◌&&◌, length};
ghost use Rattle.tl_tree.specs.Planted.{database_text};
ghost use Rattle.tl_command.specs.Performs.{Performs};
ghost use Rattle.tl_command.specs.Runs.{over_database};
ghost use Rattle.tl_offer.specs.Offered.{counted_faults};
ghost use Rattle.tl_install.specs.Install.{planned_run};
ghost use Rattle.tl_renew.specs.Updating.{update_of};
ghost use Rattle.tl_update.specs.Update.{update_run};

use std::alloc::Global;
use tl_action::Repository;
use tl_command::{Acted, Session, load};
use tl_host::{Host, Shelf};
use tl_install::{end_plan, make_steps};
use tl_offer::{Offer, load_offer};
use tl_path::Name;
use tl_renew::{UpdateAsk, plan_update};
use tl_tree::Tree;

// Updates packages over what a command is offered.
fn update_offered<S: Shelf, H: Host>(
    alloc: Global,
    names: &[Name],
    ask: &UpdateAsk,
    formats: bool,
    offer: &Offer,
    shelf: &mut S,
    tree: Tree<H>,
) -> Acted<H>
    requires { length offer.now.repos.items ≤ 16 }
    ensures { Performs (S.tells && H.tells) H.seen (λ t. planned_run (S.seen shelf.old).repositories offer.now.repos.items formats
        (update_of offer.now.pins offer.now.repos.items tree.db t names.now ask.now) tree.db t)
        0 tree.seen (counted_faults (S.seen shelf.old).faults) (counted_faults (S.seen shelf.new).faults) result.ending result.state }
{
    tree.stands();
    let mut tree = tree;
    match plan_update(alloc, &mut tree, &offer.pins, &offer.repos, names, ask) {
        Ok(steps) => make_steps(alloc, shelf, &offer.repos, &steps, formats, tree),
        Err(error) => end_plan(alloc, error, tree),
    }
}

// Updates packages of a tree.
fn update_over<S: Shelf, H: Host>(
    alloc: Global,
    names: &[Name],
    ask: &UpdateAsk,
    formats: bool,
    repositories: &[Repository],
    shelf: &mut S,
    tree: Tree<H>,
) -> Acted<H>
    ensures { Performs (S.tells && H.tells) H.seen
        (λ t. update_run names.now ask.now formats repositories.now (S.seen shelf.old).repositories t tree.db)
        0 tree.seen (counted_faults (S.seen shelf.old).faults) (counted_faults (S.seen shelf.new).faults) result.ending result.state }
{
    match load_offer(alloc, repositories, shelf, tree) {
        Ok((offer, tree)) => update_offered(alloc, names, ask, formats, &offer, shelf, tree),
        Err(acted) => acted,
    }
}

/// Carries `update` out: of the installed packages that have a newer candidate the asked ones or all come in the place of the old ones, and
/// what comes and leaves with them, as `plan_update` says. The plan's steps are made one after the other; each fetches the containers of
/// its packages, replaces these whole, and keeps backups of what leaves or is replaced where the tree asks for them. With `formats` it says
/// the formats to be made anew behind the steps.
///
/// The refusals of the pins and the repositories come first, as `load_offer` says; then those of the plan, as `plan_update` says; then those
/// of each step, as `make_steps` says. It stops at the repositories only where their count of faults rose.
pub fn update<S: Shelf, H: Host>(
    alloc: Global,
    names: &[Name],
    ask: &UpdateAsk,
    formats: bool,
    repositories: &[Repository],
    shelf: &mut S,
    session: Session<H>,
) -> Acted<H>
    ensures { Performs (S.tells && H.tells) H.seen
        (λ tree. over_database (update_run names.now ask.now formats repositories.now (S.seen shelf.old).repositories tree) (database_text tree))
        0 session (counted_faults (S.seen shelf.old).faults) (counted_faults (S.seen shelf.new).faults) result.ending result.state }
{
    match load(alloc, session) {
        Ok(tree) => update_over(alloc, names, ask, formats, repositories, shelf, tree),
        Err(acted) => acted,
    }
}
