//! `search`: the packages that a word stands in.
ghost use Rattle.std.specs.Prelude.{◌&&◌};
ghost use Rattle.tl_command.specs.Endings.{no_devices};
ghost use Rattle.tl_command.specs.Performs.{Performs};
ghost use Rattle.tl_offer.specs.Offered.{counted_faults};
ghost use Rattle.tl_show.specs.Opening.{over_offer};
ghost use Rattle.tl_show.specs.Search.{search_run};

use crate::opening::open;
use std::alloc::Global;
use tl_action::Repository;
use tl_command::{Acted, Session, give_up, say};
use tl_host::{Host, Shelf};
use tl_offer::Offer;
use tl_tree::Tree;

// Says the packages that a word stands in.
fn say_found<H: Host>(alloc: Global, word: &[u8], offer: &Offer, tree: Tree<H>) -> Acted<H>
    ensures { Performs H.tells H.seen (λ _. search_run word.now tree.db offer.now.pins offer.now.repos.items)
        0 tree.seen no_devices no_devices result.ending result.state }
{
    match tl_report::search(alloc, &tree, &offer.pins, &offer.repos, word) {
        Ok(text) => say(&text, Session::of_tree(tree)),
        Err(_) => give_up(Session::of_tree(tree)),
    }
}

/// Carries `search` out: says a line for each package of the view whose name or short description has the bytes of a word, in the order of
/// their names. It makes no step, and refuses nothing but a database, pins or repositories that don't read.
pub fn search<H: Host, S: Shelf>(
    alloc: Global,
    word: &[u8],
    repositories: &[Repository],
    shelf: &mut S,
    session: Session<H>,
) -> Acted<H>
    ensures { Performs (S.tells && H.tells) H.seen (over_offer repositories.now (S.seen shelf.old).repositories (search_run word.now))
        0 session (counted_faults (S.seen shelf.old).faults) (counted_faults (S.seen shelf.new).faults) result.ending result.state }
{
    match open(alloc, repositories, shelf, session) {
        Ok((offer, tree)) => say_found(alloc, word, &offer, tree),
        Err(acted) => acted,
    }
}
