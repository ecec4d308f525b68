//! Which installed packages are updated, and which binary parts come with them.
ghost use Rattle.std.specs.Prelude.{◌≡◌, ◌≤◌, ℕ, List, [], length, map, filter, IfOk};
ghost use Rattle.std.specs.Str.{bytes_eq};
ghost use Rattle.indexmap.specs.IndexSet.{insert_all};
ghost use Rattle.tl_db.specs.Entries.{entry_of};
ghost use Rattle.tl_depend.specs.Needed.{tree_platforms};
ghost use Rattle.tl_pin.specs.Candidates.{view_entry};
ghost use Rattle.tl_renew.specs.Sets.{HaveSame};
ghost use Rattle.tl_renew.specs.Updated.{has_update, is_updated, updated_among, comes_beside, renewed_names};

use crate::ask::UpdateAsk;
use indexmap::IndexSet;
use std::alloc::{AllocError, Global};
use tl_bring::{may_come, with_parts};
use tl_db::{Db, Repo};
use tl_object::Object;
use tl_path::Name;
use tl_pin::{Pins, candidate};
use tl_plan::is_protected;

// Whether an installed package has a newer candidate.
fn has_update(pins: &Pins, repos: &[Repo], entry: &Object) -> bool
    requires { length repos.now ≤ 16 }
    ensures { result ≡ has_update pins.now repos.now entry.now }
{
    match candidate(pins, repos, &entry.name) {
        Some((_, revision)) => !is_protected(&entry.name) && entry.revision < revision,
        None => false,
    }
}

// Whether an installed package is updated, where all are asked for or these.
fn is_updated(
    pins: &Pins,
    repos: &[Repo],
    all: bool,
    asked: &IndexSet<Name>,
    entry: &Object,
) -> bool
    requires { length repos.now ≤ 16 }
    ensures { result ≡ is_updated pins.now repos.now all asked.now.keys entry.now }
{
    has_update(pins, repos, entry) && (all || asked.contains(&entry.name))
}

// The names of the installed packages that are updated, where all are asked for or these.
fn updated_among(
    alloc: Global,
    pins: &Pins,
    repos: &[Repo],
    db: &Db,
    all: bool,
    asked: &IndexSet<Name>,
) -> Result<IndexSet<Name>, AllocError>
    requires { length repos.now ≤ 16 }
    ensures { IfOk result (λ names. names.keys ≡ insert_all bytes_eq [] (updated_among pins.now repos.now all asked.now.keys db.now)) }
{
    let mut names = IndexSet::new(alloc);
    for entry in db.entries() {
        if is_updated(pins, repos, all, asked, entry) {
            names.insert(entry.name.clone()?)?;
        }
    }
    Ok(names)
}

// Whether a name is among updated ones or may come.
fn comes_beside(pins: &Pins, repos: &[Repo], db: &Db, updated: &IndexSet<Name>, name: &Name) -> bool
    requires { length repos.now ≤ 16 }
    ensures { result ≡ comes_beside pins.now repos.now db.now updated.now.keys name.now }
{
    updated.contains(name) || may_come(pins, repos, db, name)
}

// Those of some names that are among updated ones or may come.
fn coming_beside(
    alloc: Global,
    pins: &Pins,
    repos: &[Repo],
    db: &Db,
    updated: &IndexSet<Name>,
    looked: &IndexSet<Name>,
) -> Result<IndexSet<Name>, AllocError>
    requires { length repos.now ≤ 16 }
    ensures { IfOk result (λ names. names.keys
        ≡ insert_all bytes_eq [] (filter (comes_beside pins.now repos.now db.now updated.now.keys) looked.now.keys)) }
{
    let mut names = IndexSet::new(alloc);
    for name in looked.as_slice() {
        if comes_beside(pins, repos, db, updated, name) {
            names.insert(name.clone()?)?;
        }
    }
    Ok(names)
}

/// The names of the packages that are updated, and of the binary parts that come with them. It takes time in proportion to the entries,
/// their depends and the pins.
pub fn renewed_names(
    alloc: Global,
    pins: &Pins,
    repos: &[Repo],
    db: &Db,
    view: &Db,
    platforms: &[Vec<u8>],
    asked: &[Name],
    ask: &UpdateAsk,
) -> Result<IndexSet<Name>, AllocError>
    requires few { length repos.now ≤ 16 }
    requires view { (name : List ℕ) → entry_of name view.now ≡ view_entry pins.now repos.now db.now name }
    requires platforms { map (λ platform. platform.items) platforms.now ≡ tree_platforms db.now }
    ensures { IfOk result (λ names. HaveSame names.keys (renewed_names pins.now repos.now db.now asked.now ask.now)) }
{
    let meant = with_parts(alloc, view, asked, platforms)?;
    let updated = updated_among(alloc, pins, repos, db, ask.all, &meant)?;
    let looked = with_parts(alloc, view, updated.as_slice(), platforms)?;
    coming_beside(alloc, pins, repos, db, &updated, &looked)
}
