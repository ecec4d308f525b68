//! `check`: what is wrong with a tree.
ghost use Rattle.tl_tree.specs.Planted.{database_text};
ghost use Rattle.tl_command.specs.Endings.{no_devices};
ghost use Rattle.tl_command.specs.Performs.{Performs};
ghost use Rattle.tl_command.specs.Runs.{over_database};
ghost use Rattle.tl_show.specs.Check.{check_run};

use std::alloc::Global;
use tl_command::{Acted, Ending, Session, give_up, load, say};
use tl_host::Host;
use tl_path::Check;
use tl_report::ReportError;
use tl_tree::Tree;

// Says what a check finds of a tree.
fn check_tree<H: Host>(alloc: Global, what: Check, tree: Tree<H>) -> Acted<H>
    ensures { Performs H.tells H.seen (λ t. check_run what t tree.db)
        0 tree.seen no_devices no_devices result.ending result.state }
{
    let mut tree = tree;
    tree.stands();
    match tl_report::check(alloc, &mut tree, what) {
        Ok(text) => say(&text, Session::of_tree(tree)),
        Err(ReportError::HostFault) => Acted {
            ending: Ending::HostFault,
            state: Err(tree.release().into_host()),
        },
        Err(_) => give_up(Session::of_tree(tree)),
    }
}

/// Carries `check` out: says a line for each finding, in the order of its parts, each once. It makes no step, and refuses nothing but a
/// database that doesn't read.
pub fn check<H: Host>(alloc: Global, what: Check, session: Session<H>) -> Acted<H>
    ensures { Performs H.tells H.seen (λ tree. over_database (check_run what tree) (database_text tree))
        0 session no_devices no_devices result.ending result.state }
{
    match load(alloc, session) {
        Ok(tree) => check_tree(alloc, what, tree),
        Err(acted) => acted,
    }
}
