//! What a command is offered: the pins of its tree, and its repositories.
ghost use Rattle.std.specs.Prelude.{◌≡◌, ◌≤◌, ◌&&◌, List, IfOk, IfErr};
ghost use Rattle.tl_model.specs.Devices.{SameShelf};
ghost use Rattle.tl_model.specs.Volume.{Volume};
ghost use Rattle.tl_db.specs.declared.repo.Repo.{Repo as OneRepo};
ghost use Rattle.tl_pin.specs.declared.line.PinLine.{PinLine};
ghost use Rattle.tl_command.specs.Performs.{Performs};
ghost use Rattle.tl_command.specs.Runs.{Run};
ghost use Rattle.tl_offer.specs.Offered.{LoadsOffer, counted_faults, offering};

use crate::pins::load_pins;
use crate::repos::{Unloaded, end_unloaded, load_repos};
use std::alloc::Global;
use tl_action::Repository;
use tl_command::{Acted, Session, give_up};
use tl_host::{Host, Shelf};
use tl_pin::Pins;
use tl_repo::Repo;
use tl_tree::Tree;

// More repositories never come: words name no more.
const MOST_REPOSITORIES: usize = 16;

/// What a command is offered: the pins of its tree, and its repositories in order.
#[derive(Drop)]
pub struct Offer {
    /// The pins.
    pub pins: Pins,
    /// The repositories, 16 at most, each with its place as its number.
    pub repos: Vec<Repo>,
}

/// The pins of a tree and the repositories of a command; or how the command ends, where they don't read.
///
/// In this order: `TooLarge` of `Pins` and `BadPins`; then for each repository in turn `Absent` and `TooLarge` of its database, `Absent` of
/// the file with its digest, `BadDigestLine`, `RepoDigest`, `RepoDatabase`, and `TooLarge` of `Packages`. It stops at the repositories only
/// where their count of faults rose. For more than 16 repositories it gives up, as for want of memory.
pub fn load_offer<H: Host, S: Shelf>(
    alloc: Global,
    repositories: &[Repository],
    shelf: &mut S,
    tree: Tree<H>,
) -> Result<(Offer, Tree<H>), Acted<H>>
    ensures read { IfOk result (λ found. LoadsOffer (S.tells && H.tells) repositories.now (S.seen shelf.old).repositories
        tree found.1 found.0.pins found.0.repos.items) }
    ensures acted { IfErr result (λ acted. (go : Volume → List PinLine → List OneRepo → Run) → Performs (S.tells && H.tells) H.seen
        (λ t. offering repositories.now (S.seen shelf.old).repositories (go t) t) 0 tree.seen
        (counted_faults (S.seen shelf.old).faults) (counted_faults (S.seen shelf.new).faults) acted.ending acted.state) }
    ensures same { SameShelf (S.seen shelf.old) (S.seen shelf.new) }
    ensures later { (S.seen shelf.old).faults ≤ (S.seen shelf.new).faults }
{
    let (pins, tree) = match load_pins(alloc, tree) {
        Ok(read) => read,
        Err(acted) => return Err(acted),
    };
    if repositories.len() > MOST_REPOSITORIES {
        return Err(give_up(Session::of_tree(tree)));
    }
    match load_repos(alloc, repositories, shelf) {
        Ok(repos) => Ok((Offer { pins, repos }, tree)),
        Err(Unloaded { place, error }) => {
            let tag = &repositories[place].tag;
            Err(end_unloaded(alloc, tag, error, tree))
        }
    }
}
