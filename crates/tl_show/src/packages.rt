//! `info`: what is known of a package, or of all.
ghost use Rattle.std.specs.Prelude.{◌≤◌, ◌&&◌, None, Some, length};
ghost use Rattle.tl_command.specs.Endings.{no_devices};
ghost use Rattle.tl_command.specs.Performs.{Performs};
ghost use Rattle.tl_offer.specs.Offered.{counted_faults};
ghost use Rattle.tl_show.specs.Info.{info_run};
ghost use Rattle.tl_show.specs.Opening.{over_offer};

use crate::opening::{open, tell};
use std::alloc::Global;
use tl_action::Repository;
use tl_command::{Acted, Session, give_up, say};
use tl_host::{Host, Shelf};
use tl_offer::Offer;
use tl_path::Name;
use tl_tree::Tree;

// Says what is known of a package.
fn say_package<H: Host>(alloc: Global, name: Name, offer: &Offer, tree: Tree<H>) -> Acted<H>
    requires { length offer.now.repos.items ≤ 16 }
    ensures { Performs H.tells H.seen (λ _. info_run (Some name) tree.db offer.now.pins offer.now.repos.items)
        0 tree.seen no_devices no_devices result.ending result.state }
{
    let report = tl_report::info(alloc, &tree, &offer.pins, &offer.repos, Some(&name));
    tell(alloc, name, report, tree)
}

// Says what is known of all packages.
fn say_all<H: Host>(alloc: Global, offer: &Offer, tree: Tree<H>) -> Acted<H>
    requires { length offer.now.repos.items ≤ 16 }
    ensures { Performs H.tells H.seen (λ _. info_run None tree.db offer.now.pins offer.now.repos.items)
        0 tree.seen no_devices no_devices result.ending result.state }
{
    match tl_report::info(alloc, &tree, &offer.pins, &offer.repos, None) {
        Ok(text) => say(&text, Session::of_tree(tree)),
        Err(_) => give_up(Session::of_tree(tree)),
    }
}

// Says what is known of a package, or of all.
fn say_info<H: Host>(alloc: Global, name: Option<Name>, offer: &Offer, tree: Tree<H>) -> Acted<H>
    requires { length offer.now.repos.items ≤ 16 }
    ensures { Performs H.tells H.seen (λ _. info_run name tree.db offer.now.pins offer.now.repos.items)
        0 tree.seen no_devices no_devices result.ending result.state }
{
    match name {
        Some(name) => say_package(alloc, name, offer, tree),
        None => say_all(alloc, offer, tree),
    }
}

/// Carries `info` out: says what is known of a package, its category and short description in the view, the installed revision and the
/// candidate; or a line for each package of the view, in the order of their names. It makes no step.
///
/// The refusals of the database, of the pins and of the repositories come first, as `load_offer` has them; then `UnknownPackage` where the
/// package is neither installed nor has a candidate.
pub fn info<H: Host, S: Shelf>(
    alloc: Global,
    name: Option<Name>,
    repositories: &[Repository],
    shelf: &mut S,
    session: Session<H>,
) -> Acted<H>
    ensures { Performs (S.tells && H.tells) H.seen (over_offer repositories.now (S.seen shelf.old).repositories (info_run name))
        0 session (counted_faults (S.seen shelf.old).faults) (counted_faults (S.seen shelf.new).faults) result.ending result.state }
{
    match open(alloc, repositories, shelf, session) {
        Ok((offer, tree)) => say_info(alloc, name, &offer, tree),
        Err(acted) => acted,
    }
}
