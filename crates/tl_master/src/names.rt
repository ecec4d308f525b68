//! The names of a tree that may have a mark.
ghost use Rattle.std.specs.Prelude.{◌≡◌, ◌++◌, ◌∷◌, [], Some, IfOk, IfErr, IfSome, OnOk, filter};
ghost use Rattle.tl_model.specs.Seen.{Told};
ghost use Rattle.tl_model.specs.Volume.{IsNext};
ghost use Rattle.tl_backup.specs.Asked.{IsAsked, tree_in};
ghost use Rattle.tl_marks.specs.Form.{is_source_path, may_be_marked};
ghost use Rattle.tl_master.specs.Answers.{Asks, IsFree, IsHostCause};
ghost use Rattle.tl_master.specs.Listing.{names_in};

use crate::error::MasterError;
use std::alloc::{AllocError, Global};
use tl_host::Host;
use tl_kind::What;
use tl_path::{Path, PathRef, is_name};
use tl_tree::Tree;

const MOST_FILES: u32 = 1_048_576;

// The first name of a tree behind another one in byte order, or the first of all.
fn next_path<H: Host>(
    alloc: Global,
    tree: &mut Tree<H>,
    after: &Option<Path>,
) -> Result<Option<Path>, MasterError>
    ensures next { Told H.tells (IfOk result (λ found. IsNext (tree_in tree.old) after.now found)) }
    ensures asked { IsAsked H.tells tree.old tree.new }
    ensures cause { IfErr result (IsHostCause tree.old tree.new) }
    ensures fault { IfErr result IsFree }
{
    let mut name = [0; 1024];
    let after = match after {
        Some(path) => Some(path.view()),
        None => None,
    };
    match tree.next_name(after, &mut name) {
        Ok(Some(count)) => Ok(Some(PathRef::of_bytes(&name[..count]).to_path(alloc)?)),
        Ok(None) => Ok(None),
        Err(_) => Err(MasterError::HostFault),
    }
}

// Whether a path is that of a package's source.
fn is_source_path(path: &[u8]) -> bool
    ensures { result ≡ is_source_path path.now }
{
    let Some(file) = path.strip_prefix(b"tlpkg/tlpsrc/") else {
        return false;
    };
    match file.strip_suffix(b".tlpsrc") {
        Some(name) => is_name(name),
        None => false,
    }
}

fn may_be_marked(path: &Path) -> bool
    ensures { result ≡ may_be_marked path.now }
{
    !path.is_reserved() || is_source_path(path.bytes())
}

// Adds a name, where it may have a mark.
fn push_name(names: &mut Vec<Path>, path: &Path) -> Result<(), AllocError>
    ensures { OnOk result (names.new.items ≡ names.old.items ++ filter may_be_marked (path.now ∷ [])) }
{
    if may_be_marked(path) {
        names.push(path.clone()?)?;
    }
    Ok(())
}

/// The names of a tree that may have a mark, in one walk over all its names. `TooLarge` of `Files` where it has more than the limit.
pub(crate) fn names<H: Host>(alloc: Global, tree: &mut Tree<H>) -> Result<Vec<Path>, MasterError>
    ensures { Asks H.tells (λ names. names.items) names_in tree.old tree.new result }
{
    let mut names = Vec::new(alloc);
    let mut last = None;
    for _number in 0..MOST_FILES + 1 {
        let path = match next_path(alloc, tree, &last) {
            Ok(Some(path)) => path,
            Ok(None) => return Ok(names),
            Err(fault) => return Err(fault),
        };
        push_name(&mut names, &path)?;
        last = Some(path);
    }
    let what = What::Files;
    let limit = what.limit();
    Err(MasterError::TooLarge { what, limit })
}
