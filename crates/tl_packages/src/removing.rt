//! `remove`: packages leave.
ghost use Rattle.tl_tree.specs.Planted.{database_text};
ghost use Rattle.tl_command.specs.Endings.{no_devices};
ghost use Rattle.tl_command.specs.Performs.{Performs};
ghost use Rattle.tl_command.specs.Runs.{over_database};
ghost use Rattle.tl_packages.specs.Remove.{remove_run};

use crate::plan::make_steps;
use std::alloc::Global;
use tl_command::{Acted, Refusal, Session, give_up, load, refuse};
use tl_host::Host;
use tl_path::Name;
use tl_plan::{PlanError, plan_remove};
use tl_tree::Tree;

// Removes packages of a tree.
fn remove_from<H: Host>(
    alloc: Global,
    names: &[Name],
    force: bool,
    formats: bool,
    tree: Tree<H>,
) -> Acted<H>
    ensures { Performs H.tells H.seen (λ t. remove_run names.now force formats t tree.db)
        0 tree.seen no_devices no_devices result.ending result.state }
{
    match plan_remove(alloc, &tree, names, force) {
        Ok(steps) => make_steps(alloc, &steps, formats, tree),
        Err(PlanError::Protected { name }) => {
            let refusal = Refusal::Protected { name };
            refuse(alloc, refusal, Session::of_tree(tree))
        }
        Err(PlanError::NotInstalled { name }) => {
            let refusal = Refusal::NotInstalled { name };
            refuse(alloc, refusal, Session::of_tree(tree))
        }
        Err(PlanError::Needed { name, by }) => {
            let refusal = Refusal::Needed { name, by };
            refuse(alloc, refusal, Session::of_tree(tree))
        }
        Err(PlanError::NoMemory) => give_up(Session::of_tree(tree)),
    }
}

/// Carries `remove` out: the asked packages leave; what an asked collection names and no other collection or scheme does, unless it is
/// one itself; and the installed binary parts of all these. Each leaves in a step of its own.
///
/// `Protected` at the first asked name that the tree keeps for itself, else `NotInstalled` at the first that isn't installed, else,
/// without `force`, `Needed` at the first that a collection or a scheme needs which isn't asked for, else `TooLarge` where the database
/// that a step would leave passes a limit.
pub fn remove<H: Host>(
    alloc: Global,
    names: &[Name],
    force: bool,
    formats: bool,
    session: Session<H>,
) -> Acted<H>
    ensures { Performs H.tells H.seen (λ tree. over_database (remove_run names.now force formats tree) (database_text tree))
        0 session no_devices no_devices result.ending result.state }
{
    match load(alloc, session) {
        Ok(tree) => remove_from(alloc, names, force, formats, tree),
        Err(acted) => acted,
    }
}
