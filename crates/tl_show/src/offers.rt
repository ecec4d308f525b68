//! `candidates`: the repositories that have a package.
ghost use Rattle.std.specs.Prelude.{◌≤◌, ◌&&◌, length};
ghost use Rattle.tl_command.specs.Endings.{no_devices};
ghost use Rattle.tl_command.specs.Performs.{Performs};
ghost use Rattle.tl_offer.specs.Offered.{counted_faults};
ghost use Rattle.tl_show.specs.Candidates.{candidates_run};
ghost use Rattle.tl_show.specs.Opening.{over_offer};

use crate::opening::{open, tell};
use std::alloc::Global;
use tl_action::Repository;
use tl_command::{Acted, Session};
use tl_host::{Host, Shelf};
use tl_offer::Offer;
use tl_path::Name;
use tl_tree::Tree;

// Says which repositories have a package.
fn say_candidates<H: Host>(alloc: Global, name: Name, offer: &Offer, tree: Tree<H>) -> Acted<H>
    requires { length offer.now.repos.items ≤ 16 }
    ensures { Performs H.tells H.seen (λ _. candidates_run name tree.db offer.now.pins offer.now.repos.items)
        0 tree.seen no_devices no_devices result.ending result.state }
{
    let report = tl_report::candidates(alloc, &offer.pins, &offer.repos, &name);
    tell(alloc, name, report, tree)
}

/// Carries `candidates` out: says a line for each repository that has a package, in their order: its tag, its revision there, and a mark
/// behind the candidate's. It makes no step.
///
/// The refusals of the database, of the pins and of the repositories come first, as `load_offer` has them; then `UnknownPackage` where no
/// repository has the package.
pub fn candidates<H: Host, S: Shelf>(
    alloc: Global,
    name: Name,
    repositories: &[Repository],
    shelf: &mut S,
    session: Session<H>,
) -> Acted<H>
    ensures { Performs (S.tells && H.tells) H.seen (over_offer repositories.now (S.seen shelf.old).repositories (candidates_run name))
        0 session (counted_faults (S.seen shelf.old).faults) (counted_faults (S.seen shelf.new).faults) result.ending result.state }
{
    match open(alloc, repositories, shelf, session) {
        Ok((offer, tree)) => say_candidates(alloc, name, &offer, tree),
        Err(acted) => acted,
    }
}
