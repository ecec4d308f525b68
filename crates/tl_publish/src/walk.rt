//! A walk over the names of a tree.
ghost use Rattle.std.specs.Prelude.{List, IfOk, IfErr, IfSome, MatchOption};
ghost use Rattle.tl_model.specs.Seen.{Told};
ghost use Rattle.tl_model.specs.Volume.{Name, Volume, IsAfter, IsNext};
ghost use Rattle.tl_path.specs.Path.{IsPath};
ghost use Rattle.tl_kind.specs.Quantities.{limit_of};
ghost use Rattle.tl_kind.specs.declared.quantity.What.TheVariants.{Files};
ghost use Rattle.tl_refusal.specs.declared.refusal.Refusal.TheVariants.{TooLarge};
ghost use Rattle.tl_backup.specs.Asked.{IsAsked, tree_in};
ghost use Rattle.tl_command.specs.Endings.{no_devices};
ghost use Rattle.tl_command.specs.Performs.{Performs};
ghost use Rattle.tl_command.specs.Runs.{Run, refused};
ghost use Rattle.tl_publish.specs.Listable.{AreInside};
ghost use Rattle.tl_publish.specs.Lsr.{over_names};
ghost use Rattle.tl_publish.specs.Walk.{IsGathered, HasManyNames, IsWalkCause, Gathers};

use crate::error::WalkError;
use crate::gathering::Gathered;
use std::alloc::Global;
use tl_command::{Acted, Ending, Refusal, Session, give_up, refuse};
use tl_host::Host;
use tl_kind::What;
use tl_path::{Path, PathRef};
use tl_tree::Tree;

const MOST_FILES: u32 = 1_048_576;

// The first name of a tree behind another one in byte order, or the first of all.
fn next_path<H: Host>(
    alloc: Global,
    tree: &mut Tree<H>,
    after: &Option<Path>,
) -> Result<Option<Path>, WalkError>
    ensures next { Told H.tells (IfOk result (λ found. IsNext (tree_in tree.old) after.now found)) }
    ensures path { IfOk result (λ found. IfSome found (λ path. IsPath path × IsAfter after.now path)) }
    ensures asked { IsAsked H.tells tree.old tree.new }
    ensures cause { IfErr result (IsWalkCause tree.old tree.new) }
{
    let mut name = [0; 1024];
    let after = match after {
        Some(path) => Some(path.view()),
        None => None,
    };
    match tree.next_name(after, &mut name) {
        Ok(Some(count)) => Ok(Some(PathRef::of_bytes(&name[..count]).to_path(alloc)?)),
        Ok(None) => Ok(None),
        Err(_) => Err(WalkError::HostFault),
    }
}

// What is gathered of the names of a tree in one walk; `None` where there are more than the limit.
fn walk<H: Host>(alloc: Global, tree: &mut Tree<H>) -> Result<Option<Gathered>, WalkError>
    ensures names { Told H.tells (IfOk result (λ found.
        MatchOption found (HasManyNames (tree_in tree.old)) (IsGathered (tree_in tree.old)))) }
    ensures inside { IfOk result (λ found. IfSome found (λ gathered. AreInside gathered.inside)) }
    ensures asked { IsAsked H.tells tree.old tree.new }
    ensures cause { IfErr result (IsWalkCause tree.old tree.new) }
{
    let mut names = Gathered::new(alloc)?;
    let mut last = None;
    for _number in 0..MOST_FILES + 1 {
        let path = match next_path(alloc, tree, &last) {
            Ok(Some(path)) => path,
            Ok(None) => return Ok(Some(names)),
            Err(fault) => return Err(fault),
        };
        names.note(&path)?;
        last = Some(path);
    }
    Ok(None)
}

// Refuses a tree with more names than the limit.
fn refuse_files<H: Host>(alloc: Global, tree: Tree<H>) -> Acted<H>
    ensures { Performs H.tells H.seen (λ _. refused (TooLarge Files (limit_of Files)))
        0 tree.seen no_devices no_devices result.ending result.state }
{
    let what = What::Files;
    let limit = what.limit();
    refuse(
        alloc,
        Refusal::TooLarge { what, limit },
        Session::of_tree(tree),
    )
}

/// What is gathered of the names of a tree, in one walk over all of them; or how a command over the names ends, where there are more than
/// the limit.
pub(crate) fn gather<H: Host>(alloc: Global, tree: Tree<H>) -> Result<(Gathered, Tree<H>), Acted<H>>
    ensures gathered { IfOk result (λ found. Gathers H.tells tree found.1 found.0) }
    ensures acted { IfErr result (λ acted. (go : Volume → List Name → Run) → Performs H.tells H.seen
        (λ t. over_names (go t) t) 0 tree.seen no_devices no_devices acted.ending acted.state) }
{
    let mut tree = tree;
    tree.stands();
    match walk(alloc, &mut tree) {
        Ok(Some(gathered)) => Ok((gathered, tree)),
        Ok(None) => Err(refuse_files(alloc, tree)),
        Err(WalkError::HostFault) => Err(Acted {
            ending: Ending::HostFault,
            state: Err(tree.release().into_host()),
        }),
        Err(WalkError::NoMemory) => Err(give_up(Session::of_tree(tree))),
    }
}
