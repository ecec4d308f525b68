//! `expand`: the entries that the source of a package stands for.
ghost use Rattle.std.specs.Prelude.{◌≡◌, IfOk};
ghost use Rattle.tl_model.specs.Acks.{IsPlain};
ghost use Rattle.tl_tree.specs.Planted.{database_text};
ghost use Rattle.tl_command.specs.Runs.{over_database};
ghost use Rattle.tl_master.specs.Answers.{Finds};
ghost use Rattle.tl_sources.specs.Expand.{expand_run, expanded_in};
ghost use Rattle.tl_sources.specs.Performing.{PerformsBy};

use crate::faults::fault_ends;
use std::alloc::Global;
use tl_command::{Acted, Session, load, say};
use tl_host::Host;
use tl_master::{Master, MasterError};
use tl_path::Name;
use tl_pattern::Regexps;
use tl_tree::Tree;

// The text of the entries of a package's source in the master of a tree.
fn expanded_in<H: Host>(
    alloc: Global,
    name: &Name,
    tree: &mut Tree<H>,
    regexps: &mut Regexps,
) -> Result<Vec<u8>, MasterError>
    ensures text { Finds H.tells (λ text. text.items) (λ verdicts t. expanded_in name.now verdicts t)
        tree.old tree.new regexps.old regexps.new result }
    ensures plain { IfOk result (λ text. IsPlain text.items) }
{
    let master = Master::load(alloc, tree, regexps)?;
    master.expand(alloc, name, regexps)
}

// Says the entries of a package's source.
fn expand_tree<H: Host>(
    alloc: Global,
    name: &Name,
    regexps: &mut Regexps,
    tree: Tree<H>,
) -> Acted<H>
    ensures { PerformsBy H.tells H.seen (λ verdicts t. expand_run name.now verdicts t tree.db)
        tree.seen regexps.old regexps.new result.ending result.state }
{
    tree.stands();
    let mut tree = tree;
    match expanded_in(alloc, name, &mut tree, regexps) {
        Ok(text) => say(&text, Session::of_tree(tree)),
        Err(fault) => fault_ends(alloc, name, fault, tree),
    }
}

/// Carries `expand` out: says the entries that the source of a package stands for, its own first, then those of its binaries in the order
/// of the platforms, each followed by an empty line. It makes no step.
///
/// The master of the tree is read first, and refused at its first fault: `TooLarge` of `Marks`, `BadMarks`; `TooLarge` of `Files` and of
/// `Sources`; then for each source in the order of their names `TooLarge` of `Source`, `BadSource`, and `UnsetVariable`, `BadPath` or
/// `Regexp` at the first pattern that has a fault. Then `NoSource` where the package has none.
///
/// Its run is a function of the verdicts on patterns as they are after the call, or at any later moment. A regular expression is refused
/// for its size only where the count of `regexps` rose.
pub fn expand<H: Host>(
    alloc: Global,
    name: &Name,
    regexps: &mut Regexps,
    session: Session<H>,
) -> Acted<H>
    ensures { PerformsBy H.tells H.seen (λ verdicts tree. over_database (expand_run name.now verdicts tree) (database_text tree))
        session regexps.old regexps.new result.ending result.state }
{
    match load(alloc, session) {
        Ok(tree) => expand_tree(alloc, name, regexps, tree),
        Err(acted) => acted,
    }
}
