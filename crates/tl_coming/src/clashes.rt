//! Refusals for paths that come and touch one another.
ghost use Rattle.std.specs.Prelude.{◌≡◌, ◌++◌, false, None, IfOk, IfErr, OnOk, map, find, option_map, option_copied};
ghost use Rattle.std.specs.List.{flat_map, list_any};
ghost use Rattle.tl_path.specs.Components.{is_touching};
ghost use Rattle.tl_entry.specs.FilePaths.{listed_paths, file_paths};
ghost use Rattle.tl_tree.specs.Owners.{name_of};
ghost use Rattle.tl_coming.specs.Refused.{IsWantedFault};
ghost use Rattle.tl_coming.specs.Refused.{first_of, second_with, clash_at, clash};
ghost use Rattle.tl_coming.specs.Listings.{is_beset, IsSettled};

use crate::error::ComingError;
use std::alloc::{AllocError, Global};
use tl_object::Object;
use tl_path::{Name, Path};
use tl_touch::{Listed, count_touching, has_touching, listed_paths};

// Adds the paths that an entry lists.
fn push_listed(alloc: Global, paths: &mut Vec<Path>, entry: &Object) -> Result<(), AllocError>
    ensures { OnOk result (paths.new.items ≡ paths.old.items ++ listed_paths entry.now) }
{
    for path in listed_paths(alloc, entry)? {
        paths.push(path)?;
    }
    Ok(())
}

/// The paths that entries list.
pub fn paths_of(alloc: Global, coming: &[&Object]) -> Result<Vec<Path>, AllocError>
    ensures { IfOk result (λ paths. paths.items ≡ flat_map listed_paths (map (λ entry. entry.now) coming.now)) }
{
    let mut paths = Vec::new(alloc);
    for entry in coming {
        push_listed(alloc, &mut paths, entry)?;
    }
    Ok(paths)
}

// The name of the first entry with a path that touches another one.
fn first_touching<'e>(
    alloc: Global,
    entries: &[&'e Object],
    path: &Path,
) -> Result<Option<&'e Name>, AllocError>
    ensures { IfOk result (λ found. option_copied found
        ≡ option_map name_of (find (λ entry. list_any (is_touching path.now) (listed_paths entry)) (map (λ entry. entry.now) entries.now))) }
{
    for entry in entries {
        if has_touching(alloc, entry, path)? {
            return Ok(Some(&entry.name));
        }
    }
    Ok(None)
}

// The name of the first of an entry and those behind it that has another path, or the same in another section, that touches a path.
#[tactic(auto, unfolding(crate::specs::Refused::second_with))]
fn second_with<'e>(
    alloc: Global,
    path: &Path,
    entry: &'e Object,
    later: &[&'e Object],
) -> Result<Option<&'e Name>, AllocError>
    ensures { IfOk result (λ second. option_copied second ≡ second_with path.now entry.now (map (λ other. other.now) later.now)) }
{
    if count_touching(alloc, entry, path)? >= 2 {
        return Ok(Some(&entry.name));
    }
    first_touching(alloc, later, path)
}

// Refuses a path of an entry that another one touches, of its own or of an entry behind it.
fn refuse_clash_at(
    alloc: Global,
    path: &Path,
    entry: &Object,
    later: &[&Object],
) -> Result<(), ComingError>
    ensures ok { OnOk result (clash_at entry.now (map (λ other. other.now) later.now) path.now ≡ None) }
    ensures fault { IfErr result (IsWantedFault (clash_at entry.now (map (λ other. other.now) later.now) path.now)) }
{
    match second_with(alloc, path, entry, later)? {
        Some(second) => Err(ComingError::Clash {
            path: path.clone()?,
            first: entry.name.clone()?,
            second: second.clone()?,
        }),
        None => Ok(()),
    }
}

// The same by the index of all paths that come, without a walk over the entries unless something is found there.
fn refuse_clash(
    alloc: Global,
    listed: &Listed,
    path: &Path,
    entry: &Object,
    later: &[&Object],
) -> Result<(), ComingError>
    requires { is_beset listed.now path.now ≡ false → second_with path.now entry.now (map (λ other. other.now) later.now) ≡ None }
    ensures ok { OnOk result (clash_at entry.now (map (λ other. other.now) later.now) path.now ≡ None) }
    ensures fault { IfErr result (IsWantedFault (clash_at entry.now (map (λ other. other.now) later.now) path.now)) }
{
    if listed.has_other(alloc, path)? {
        refuse_clash_at(alloc, path, entry, later)
    } else {
        Ok(())
    }
}

// Refuses the least path of an entry that another one touches, of its own or of an entry behind it.
fn refuse_clashes_of(
    alloc: Global,
    listed: &Listed,
    entry: &Object,
    later: &[&Object],
) -> Result<(), ComingError>
    requires { IsSettled listed.now entry.now (map (λ other. other.now) later.now) }
    ensures ok { OnOk result (first_of (clash_at entry.now (map (λ other. other.now) later.now)) (file_paths entry.now) ≡ None) }
    ensures fault { IfErr result (IsWantedFault (first_of (clash_at entry.now (map (λ other. other.now) later.now)) (file_paths entry.now))) }
{
    let paths = entry.file_paths(alloc)?;
    for path in &paths {
        refuse_clash(alloc, listed, path, entry, later)?;
    }
    Ok(())
}

/// Refuses the first entry's least path that another path touches, of its own or of an entry behind it.
pub fn refuse_clashes(alloc: Global, coming: &[&Object]) -> Result<(), ComingError>
    ensures ok { OnOk result (clash (map (λ entry. entry.now) coming.now) ≡ None) }
    ensures fault { IfErr result (IsWantedFault (clash (map (λ entry. entry.now) coming.now))) }
{
    let paths = paths_of(alloc, coming)?;
    let listed = Listed::of(alloc, &paths)?;
    for (place, entry) in coming.iter().enumerate() {
        match refuse_clashes_of(alloc, &listed, entry, &coming[place + 1..]) {
            Ok(()) => {}
            Err(fault) => return Err(fault),
        }
    }
    Ok(())
}
