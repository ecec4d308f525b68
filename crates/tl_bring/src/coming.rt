//! Which packages come where some are asked to.
ghost use Rattle.std.specs.Prelude.{◌≡◌, ◌≤◌, ◌&&◌, ℕ, List, [], not, map, filter, length, is_some, IfOk, OnOk};
ghost use Rattle.std.specs.Str.{bytes_eq};
ghost use Rattle.indexmap.specs.IndexSet.{insert_all};
ghost use Rattle.tl_db.specs.Entries.{entry_of};
ghost use Rattle.tl_depend.specs.Needed.{tree_platforms};
ghost use Rattle.tl_pin.specs.Candidates.{candidate_of, view_entry};
ghost use Rattle.tl_bring.specs.Coming.{IsEnough, parts_or_none, parts_in, looked_at, names_again, may_come, comes, install_names};
ghost use Rattle.tl_plan.specs.Removal.{is_among};

use indexmap::IndexSet;
use std::alloc::{AllocError, Global};
use tl_db::{Db, Repo};
use tl_depend::{needs, order};
use tl_path::Name;
use tl_pin::{Pins, candidate, view};
use tl_plan::{add_parts, is_protected, name_set, tree_platforms};

/// How packages are asked to come.
#[derive(Clone, Copy)]
pub struct InstallAsk {
    /// Whether what they depend on comes too.
    pub depends: bool,
    /// Whether their binary parts come too. Without them nothing comes that they depend on.
    pub parts: bool,
    /// Whether those that are installed come again.
    pub reinstall: bool,
}

// Adds the binary parts of a name.
fn add_parts_of(
    alloc: Global,
    names: &mut IndexSet<Name>,
    view: &Db,
    name: &Name,
    platforms: &[Vec<u8>],
) -> Result<(), AllocError>
    ensures { OnOk result (names.new.keys ≡ insert_all bytes_eq names.old.keys
        (parts_or_none (map (λ platform. platform.items) platforms.now) (entry_of name.now view.now))) }
{
    match view.get(name) {
        Some(entry) => add_parts(alloc, names, entry, platforms),
        None => Ok(()),
    }
}

/// Some names and the binary parts of their entries in the view, each once.
#[tactic(auto, using(crate::proofs::InstallLaws::gathered_onto))]
pub fn with_parts(
    alloc: Global,
    view: &Db,
    names: &[Name],
    platforms: &[Vec<u8>],
) -> Result<IndexSet<Name>, AllocError>
    ensures { IfOk result (λ all. all.keys ≡ insert_all bytes_eq (insert_all bytes_eq [] names.now)
        (parts_in (λ name. entry_of name view.now) (map (λ platform. platform.items) platforms.now) names.now)) }
{
    let mut all = name_set(alloc, names)?;
    for name in names {
        add_parts_of(alloc, &mut all, view, name, platforms)?;
    }
    Ok(all)
}

// The names that are looked at.
fn looked_at(
    alloc: Global,
    names: &[Name],
    ask: &InstallAsk,
    view: &Db,
    platforms: &[Vec<u8>],
) -> Result<IndexSet<Name>, AllocError>
    ensures { IfOk result (λ looked. (count : ℕ) → IsEnough view.now (map (λ platform. platform.items) platforms.now) count
        → (name : List ℕ) → is_among name looked.keys
        ≡ is_among name (looked_at names.now ask.now (λ n. entry_of n view.now) (map (λ platform. platform.items) platforms.now) count)) }
{
    if !ask.parts {
        return name_set(alloc, names);
    }
    if !ask.depends {
        return with_parts(alloc, view, names, platforms);
    }
    needs(alloc, view, names, platforms)
}

// The names whose packages may come again.
fn names_again(
    alloc: Global,
    names: &[Name],
    ask: &InstallAsk,
) -> Result<IndexSet<Name>, AllocError>
    ensures { IfOk result (λ again. again.keys ≡ insert_all bytes_eq [] (names_again names.now ask.now)) }
{
    if ask.reinstall {
        name_set(alloc, names)
    } else {
        Ok(IndexSet::new(alloc))
    }
}

/// Whether a package is installed.
pub fn is_installed(db: &Db, name: &Name) -> bool
    ensures { result ≡ is_some (entry_of name.now db.now) }
{
    db.get(name).is_some()
}

/// Whether a repository gives a package.
pub fn is_given(pins: &Pins, repos: &[Repo], name: &Name) -> bool
    requires { length repos.now ≤ 16 }
    ensures { result ≡ is_some (candidate_of pins.now repos.now name.now) }
{
    candidate(pins, repos, name).is_some()
}

/// Whether a package may come that isn't installed: the tree doesn't keep its name for itself, and a repository gives it.
pub fn may_come(pins: &Pins, repos: &[Repo], db: &Db, name: &Name) -> bool
    requires { length repos.now ≤ 16 }
    ensures { result ≡ may_come pins.now repos.now db.now name.now }
{
    !is_protected(name) && is_given(pins, repos, name) && !is_installed(db, name)
}

// Whether a package comes, where those of some names may come again.
fn comes(pins: &Pins, repos: &[Repo], db: &Db, again: &IndexSet<Name>, name: &Name) -> bool
    requires { length repos.now ≤ 16 }
    ensures { result ≡ comes pins.now repos.now db.now again.now.keys name.now }
{
    may_come(pins, repos, db, name) || (again.contains(name) && is_installed(db, name))
}

// Those of some names whose packages come.
fn coming_among(
    alloc: Global,
    pins: &Pins,
    repos: &[Repo],
    db: &Db,
    again: &IndexSet<Name>,
    looked: &IndexSet<Name>,
) -> Result<IndexSet<Name>, AllocError>
    requires { length repos.now ≤ 16 }
    ensures { IfOk result (λ names. names.keys ≡ insert_all bytes_eq [] (filter (comes pins.now repos.now db.now again.now.keys) looked.now.keys)) }
{
    let mut names = IndexSet::new(alloc);
    for name in looked.as_slice() {
        if comes(pins, repos, db, again, name) {
            names.insert(name.clone()?)?;
        }
    }
    Ok(names)
}

/// The names of the packages that come where some are asked to, in the order in which they are installed: of those that the asked ones
/// reach in the view, each that a repository gives and that isn't installed. Without depends only the asked ones and their binary parts
/// come, without parts only the asked ones; with leave to, asked ones that are installed come again.
pub fn install_names(
    alloc: Global,
    pins: &Pins,
    repos: &[Repo],
    db: &Db,
    names: &[Name],
    ask: &InstallAsk,
) -> Result<Vec<Name>, AllocError>
    requires { length repos.now ≤ 16 }
    ensures { IfOk result (λ coming. coming.items ≡ install_names pins.now repos.now db.now names.now ask.now) }
{
    let view = view(alloc, pins, repos, db)?;
    let platforms = tree_platforms(alloc, db)?;
    let looked = looked_at(alloc, names, ask, &view, &platforms)?;
    let again = names_again(alloc, names, ask)?;
    let coming = coming_among(alloc, pins, repos, db, &again, &looked)?;
    order(alloc, &view, &coming)
}
