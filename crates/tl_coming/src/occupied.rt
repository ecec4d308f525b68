//! Refusals for what stands in a tree into which packages come.
ghost use Rattle.std.specs.Prelude.{◌≡◌, ◌++◌, ◌∷◌, [], None, IfOk, IfErr, OnOk, map, filter};
ghost use Rattle.std.specs.FinMap.{keys};
ghost use Rattle.tl_model.specs.Seen.{Told};
ghost use Rattle.tl_model.specs.Volume.{IsNext};
ghost use Rattle.tl_coming.specs.Refused.{IsWantedFault};
ghost use Rattle.tl_coming.specs.Asked.{Answers, IsAsked, IsCausedBy, IsFaultOf, IsFree, tree_in, unless_fault};
ghost use Rattle.tl_coming.specs.Listings.{is_in_way};
ghost use Rattle.tl_coming.specs.Refused.{first_of, files_fault, occupied_path, standing_fault, tree_fault};

use crate::clashes::paths_of;
use crate::error::ComingError;
use crate::owned::all_owned;
use std::alloc::{AllocError, Global};
use tl_host::Host;
use tl_kind::What;
use tl_object::Object;
use tl_path::{Path, PathRef};
use tl_touch::PathSet;
use tl_tree::Tree;

const MOST_FILES: u32 = 1_048_576;

// The first path of a tree behind another one in byte order, or the first of all.
fn next_path<H: Host>(
    alloc: Global,
    tree: &mut Tree<H>,
    after: &Option<Path>,
) -> Result<Option<Path>, ComingError>
    ensures next { Told H.tells (IfOk result (λ found. IsNext (tree_in tree.old) after.now found)) }
    ensures fault { IfErr result IsFree }
    ensures asked { IsAsked H.tells tree.old tree.new }
    ensures cause { IfErr result (IsCausedBy tree.old tree.new) }
{
    let mut name = [0; 1024];
    let after = match after {
        Some(path) => Some(path.view()),
        None => None,
    };
    match tree.next_name(after, &mut name) {
        Ok(Some(count)) => Ok(Some(PathRef::of_bytes(&name[..count]).to_path(alloc)?)),
        Ok(None) => Ok(None),
        Err(_) => Err(ComingError::HostFault),
    }
}

// Whether a name of the tree is no file of an installed package and touches a path that comes.
fn is_in_way(
    alloc: Global,
    owned: &PathSet,
    coming: &PathSet,
    name: &Path,
) -> Result<bool, AllocError>
    ensures { IfOk result (λ is. is ≡ is_in_way owned.now coming.now name.now) }
{
    if owned.has(name.bytes()) {
        return Ok(false);
    }
    coming.touches(alloc, name)
}

// Adds a name of the tree where it is in the way.
fn push_in_way(
    alloc: Global,
    names: &mut Vec<Path>,
    owned: &PathSet,
    coming: &PathSet,
    name: &Path,
) -> Result<(), AllocError>
    ensures { OnOk result (names.new.items ≡ names.old.items ++ filter (is_in_way owned.now coming.now) (name.now ∷ [])) }
{
    if is_in_way(alloc, owned, coming, name)? {
        names.push(name.clone()?)?;
    }
    Ok(())
}

// The names of the tree that are in the way, in order, where it has no more names than the limit.
fn names_in_way<H: Host>(
    alloc: Global,
    tree: &mut Tree<H>,
    owned: &PathSet,
    coming: &PathSet,
) -> Result<Vec<Path>, ComingError>
    ensures names { Told H.tells (Answers (λ names. names.items) result
        (unless_fault (files_fault (tree_in tree.old)) (filter (is_in_way owned.now coming.now) (keys (tree_in tree.old))))) }
    ensures asked { IsAsked H.tells tree.old tree.new }
    ensures cause { IfErr result (IsCausedBy tree.old tree.new) }
{
    let mut names = Vec::new(alloc);
    let mut last = None;
    for _number in 0..MOST_FILES + 1 {
        let name = match next_path(alloc, tree, &last) {
            Ok(Some(name)) => name,
            Ok(None) => return Ok(names),
            Err(fault) => return Err(fault),
        };
        push_in_way(alloc, &mut names, owned, coming, &name)?;
        last = Some(name);
    }
    let what = What::Files;
    let limit = what.limit();
    Err(ComingError::TooLarge { what, limit })
}

// Refuses the least path of an entry that touches one of some names.
fn refuse_occupied_of(alloc: Global, names: &PathSet, entry: &Object) -> Result<(), ComingError>
    ensures ok { OnOk result (occupied_path names.now entry.now ≡ None) }
    ensures fault { IfErr result (IsWantedFault (occupied_path names.now entry.now)) }
{
    let paths = entry.file_paths(alloc)?;
    for path in &paths {
        if names.touches(alloc, path)? {
            return Err(ComingError::Occupied {
                path: path.clone()?,
            });
        }
    }
    Ok(())
}

// Refuses the first entry's least path that touches one of some names.
fn refuse_occupied(alloc: Global, names: &PathSet, coming: &[&Object]) -> Result<(), ComingError>
    ensures ok { OnOk result (first_of (occupied_path names.now) (map (λ entry. entry.now) coming.now) ≡ None) }
    ensures fault { IfErr result (IsWantedFault (first_of (occupied_path names.now) (map (λ entry. entry.now) coming.now))) }
{
    for entry in coming {
        refuse_occupied_of(alloc, names, entry)?;
    }
    Ok(())
}

// Refuses a tree of too many names, then the first entry's least path that touches one which no installed package has as a file.
fn refuse_standing<H: Host>(
    alloc: Global,
    tree: &mut Tree<H>,
    coming: &[&Object],
) -> Result<(), ComingError>
    ensures ok { Told H.tells (OnOk result (standing_fault tree.old.db (tree_in tree.old) (map (λ entry. entry.now) coming.now) ≡ None)) }
    ensures fault { Told H.tells (IfErr result (IsFaultOf (standing_fault tree.old.db (tree_in tree.old) (map (λ entry. entry.now) coming.now)))) }
    ensures asked { IsAsked H.tells tree.old tree.new }
    ensures cause { IfErr result (IsCausedBy tree.old tree.new) }
{
    let owned = all_owned(alloc, tree.db())?;
    let paths = PathSet::of(paths_of(alloc, coming)?);
    let names = match names_in_way(alloc, tree, &owned, &paths) {
        Ok(names) => names,
        Err(fault) => return Err(fault),
    };
    refuse_occupied(alloc, &PathSet::of(names), coming)
}

/// Refuses a tree of too many names as `TooLarge` of `Files`, then as `Occupied` the first entry's least path that touches a name which
/// no installed package has as a file. Where nothing comes, nothing is refused. It walks once over the names of the tree.
pub fn refuse_in_tree<H: Host>(
    alloc: Global,
    tree: &mut Tree<H>,
    coming: &[&Object],
) -> Result<(), ComingError>
    ensures ok { Told H.tells (OnOk result (tree_fault tree.old.db (tree_in tree.old) (map (λ entry. entry.now) coming.now) ≡ None)) }
    ensures fault { Told H.tells (IfErr result (IsFaultOf (tree_fault tree.old.db (tree_in tree.old) (map (λ entry. entry.now) coming.now)))) }
    ensures asked { IsAsked H.tells tree.old tree.new }
    ensures cause { IfErr result (IsCausedBy tree.old tree.new) }
{
    if coming.is_empty() {
        Ok(())
    } else {
        refuse_standing(alloc, tree, coming)
    }
}
