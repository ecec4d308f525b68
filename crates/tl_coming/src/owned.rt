//! Refusals for paths that come and touch files of installed packages that stay.
ghost use Rattle.std.specs.Prelude.{◌≡◌, ◌++◌, [], false, None, IfOk, IfErr, OnOk, find, map, option_copied, option_map, if◌then◌else◌, ℕ, List};
ghost use Rattle.std.specs.List.{flat_map, list_any};
ghost use Rattle.tl_path.specs.Components.{is_touching};
ghost use Rattle.tl_entry.specs.FilePaths.{file_paths};
ghost use Rattle.tl_entry.specs.Rising.{has_key};
ghost use Rattle.tl_tree.specs.Changes.{own};
ghost use Rattle.tl_tree.specs.Owners.{name_of};
ghost use Rattle.tl_plan.specs.Removal.{is_among};
ghost use Rattle.tl_coming.specs.Refused.{IsWantedFault};
ghost use Rattle.tl_coming.specs.Refused.{first_of, owns_outside, owned_at, owned_path};
ghost use Rattle.tl_coming.specs.Listings.{owned_outside};

use crate::error::ComingError;
use indexmap::IndexSet;
use std::alloc::{AllocError, Global};
use tl_db::Db;
use tl_object::Object;
use tl_path::{Name, Path};
use tl_touch::{PathSet, listed_paths};

/// The files of an entry.
pub fn own_files(alloc: Global, entry: &Object) -> Result<Vec<Path>, AllocError>
    ensures { IfOk result (λ files. files.items ≡ own entry.now) }
{
    let mut files = listed_paths(alloc, entry)?;
    files.retain(|path| !path.is_reserved());
    Ok(files)
}

// Adds the files of an entry.
fn push_own(alloc: Global, files: &mut Vec<Path>, entry: &Object) -> Result<(), AllocError>
    ensures { OnOk result (files.new.items ≡ files.old.items ++ own entry.now) }
{
    for file in own_files(alloc, entry)? {
        files.push(file)?;
    }
    Ok(())
}

/// The files of all installed packages.
pub fn all_owned(alloc: Global, db: &Db) -> Result<PathSet, AllocError>
    ensures { IfOk result (λ set. (path : List ℕ) → has_key (λ p. p) path set ≡ has_key (λ p. p) path (flat_map own db.now)) }
{
    let mut files = Vec::new(alloc);
    for entry in db.entries() {
        push_own(alloc, &mut files, entry)?;
    }
    Ok(PathSet::of(files))
}

// Adds the files of an entry that has none of these names.
fn push_outside(
    alloc: Global,
    files: &mut Vec<Path>,
    names: &IndexSet<Name>,
    entry: &Object,
) -> Result<(), AllocError>
    ensures { OnOk result (files.new.items ≡ files.old.items ++ (if is_among entry.now.name names.now.keys then [] else own entry.now)) }
{
    if names.contains(&entry.name) {
        Ok(())
    } else {
        push_own(alloc, files, entry)
    }
}

// The files of the installed packages that have none of these names.
fn owned_outside(alloc: Global, db: &Db, names: &IndexSet<Name>) -> Result<PathSet, AllocError>
    ensures { IfOk result (λ set. (path : List ℕ) → has_key (λ p. p) path set ≡ has_key (λ p. p) path (owned_outside db.now names.now.keys)) }
{
    let mut files = Vec::new(alloc);
    for entry in db.entries() {
        push_outside(alloc, &mut files, names, entry)?;
    }
    Ok(PathSet::of(files))
}

// Whether an entry has a file that touches a path.
fn owns_touching(alloc: Global, entry: &Object, path: &Path) -> Result<bool, AllocError>
    ensures { IfOk result (λ owns. owns ≡ list_any (is_touching path.now) (own entry.now)) }
{
    let files = own_files(alloc, entry)?;
    Ok(files.iter().any(|file| path.touches(file)))
}

// Whether an entry has none of these names, and a file that touches a path.
fn owns_outside(
    alloc: Global,
    entry: &Object,
    names: &IndexSet<Name>,
    path: &Path,
) -> Result<bool, AllocError>
    ensures { IfOk result (λ owns. owns ≡ owns_outside names.now.keys path.now entry.now) }
{
    if names.contains(&entry.name) {
        Ok(false)
    } else {
        owns_touching(alloc, entry, path)
    }
}

// The name of the first installed package that has none of these names, and a file that touches a path.
fn first_owner<'d>(
    alloc: Global,
    db: &'d Db,
    names: &IndexSet<Name>,
    path: &Path,
) -> Result<Option<&'d Name>, AllocError>
    ensures { IfOk result (λ owner. option_copied owner ≡ option_map name_of (find (owns_outside names.now.keys path.now) db.now)) }
{
    for entry in db.entries() {
        if owns_outside(alloc, entry, names, path)? {
            return Ok(Some(&entry.name));
        }
    }
    Ok(None)
}

// Refuses a path that touches a file of an installed package that has none of these names.
fn refuse_owned_at(
    alloc: Global,
    db: &Db,
    names: &IndexSet<Name>,
    path: &Path,
) -> Result<(), ComingError>
    ensures ok { OnOk result (owned_at db.now names.now.keys path.now ≡ None) }
    ensures fault { IfErr result (IsWantedFault (owned_at db.now names.now.keys path.now)) }
{
    match first_owner(alloc, db, names, path)? {
        Some(owner) => Err(ComingError::Owned {
            path: path.clone()?,
            owner: owner.clone()?,
        }),
        None => Ok(()),
    }
}

// The same by the index of these files, without a walk over the entries unless something is found there.
fn refuse_owned_path(
    alloc: Global,
    db: &Db,
    names: &IndexSet<Name>,
    outside: &PathSet,
    path: &Path,
) -> Result<(), ComingError>
    requires { list_any (is_touching path.now) outside.now ≡ false → owned_at db.now names.now.keys path.now ≡ None }
    ensures ok { OnOk result (owned_at db.now names.now.keys path.now ≡ None) }
    ensures fault { IfErr result (IsWantedFault (owned_at db.now names.now.keys path.now)) }
{
    if outside.touches(alloc, path)? {
        refuse_owned_at(alloc, db, names, path)
    } else {
        Ok(())
    }
}

// Refuses the least path of an entry that touches such a file.
fn refuse_owned_of(
    alloc: Global,
    db: &Db,
    names: &IndexSet<Name>,
    outside: &PathSet,
    entry: &Object,
) -> Result<(), ComingError>
    requires { (path : List ℕ) → list_any (is_touching path) outside.now ≡ false → owned_at db.now names.now.keys path ≡ None }
    ensures ok { OnOk result (owned_path db.now names.now.keys entry.now ≡ None) }
    ensures fault { IfErr result (IsWantedFault (owned_path db.now names.now.keys entry.now)) }
{
    let paths = entry.file_paths(alloc)?;
    for path in &paths {
        refuse_owned_path(alloc, db, names, outside, path)?;
    }
    Ok(())
}

/// Refuses the first entry's least path that touches a file of an installed package that has none of these names: `Owned` with the first
/// such package. It takes time in proportion to n log n, for n paths that come and files of installed packages.
pub fn refuse_owned(
    alloc: Global,
    db: &Db,
    names: &IndexSet<Name>,
    coming: &[&Object],
) -> Result<(), ComingError>
    ensures ok { OnOk result (first_of (owned_path db.now names.now.keys) (map (λ entry. entry.now) coming.now) ≡ None) }
    ensures fault { IfErr result (IsWantedFault (first_of (owned_path db.now names.now.keys) (map (λ entry. entry.now) coming.now))) }
{
    let outside = owned_outside(alloc, db, names)?;
    for entry in coming {
        refuse_owned_of(alloc, db, names, &outside, entry)?;
    }
    Ok(())
}
