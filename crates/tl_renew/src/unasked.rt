//! What comes and leaves for the collections of a tree, though no one asked for it.
ghost use Rattle.std.specs.Prelude.{◌≡◌, ◌≤◌, ℕ, List, [], length, map, filter, option_copied, Some, None, IfOk, OnOk};
ghost use Rattle.std.specs.List.{flat_map};
ghost use Rattle.std.specs.Str.{bytes_eq};
ghost use Rattle.indexmap.specs.IndexSet.{insert_all};
ghost use Rattle.tl_db.specs.Entries.{entry_of};
ghost use Rattle.tl_depend.specs.Needed.{tree_platforms};
ghost use Rattle.tl_depend.specs.Names.{named_of};
ghost use Rattle.tl_pin.specs.Candidates.{candidate_of, entry_or, view_entry};
ghost use Rattle.tl_plan.specs.Removal.{is_collection};
ghost use Rattle.tl_renew.specs.Sets.{HaveSame};
ghost use Rattle.tl_renew.specs.Unasked.{named_installed, named_newly, is_forced, may_come_unasked, reached_in_view, auto_installed, may_leave, auto_removed};

use indexmap::IndexSet;
use std::alloc::{AllocError, Global};
use tl_bring::{is_given, is_installed, may_come, with_parts};
use tl_db::{Db, Repo};
use tl_depend::{add_depends, needs};
use tl_object::Object;
use tl_path::{Category, Name};
use tl_pin::{Pins, view_entry};
use tl_plan::is_protected;

fn is_collection(category: Category) -> bool
    ensures { result ≡ is_collection category }
{
    matches!(category, Category::Collection)
}

// Adds the names for which the depends of an entry stand.
fn add_named(
    alloc: Global,
    names: &mut IndexSet<Name>,
    entry: Option<&Object>,
    platforms: &[Vec<u8>],
) -> Result<(), AllocError>
    ensures { OnOk result (names.new.keys
        ≡ insert_all bytes_eq names.old.keys (named_of (map (λ platform. platform.items) platforms.now) (option_copied entry.entry))) }
{
    match entry {
        Some(entry) => add_depends(alloc, names, entry.depends.as_slice(), platforms),
        None => Ok(()),
    }
}

// Adds what an installed entry names, where it is a collection.
fn add_installed(
    alloc: Global,
    names: &mut IndexSet<Name>,
    entry: &Object,
    platforms: &[Vec<u8>],
) -> Result<(), AllocError>
    ensures { OnOk result (names.new.keys
        ≡ insert_all bytes_eq names.old.keys (named_installed (map (λ platform. platform.items) platforms.now) entry.now)) }
{
    if is_collection(entry.category) {
        add_named(alloc, names, Some(entry), platforms)
    } else {
        Ok(())
    }
}

// The names that the installed collections name.
#[tactic(auto, using(crate::proofs::SameLaws::gathered_onto))]
fn collected(alloc: Global, db: &Db, platforms: &[Vec<u8>]) -> Result<IndexSet<Name>, AllocError>
    ensures { IfOk result (λ names. names.keys
        ≡ insert_all bytes_eq [] (flat_map (named_installed (map (λ platform. platform.items) platforms.now)) db.now)) }
{
    let mut names = IndexSet::new(alloc);
    for entry in db.entries() {
        add_installed(alloc, &mut names, entry, platforms)?;
    }
    Ok(names)
}

// The entry of a name's candidate, where `none` has no entry.
fn candidate_entry<'a>(
    pins: &Pins,
    repos: &'a [Repo],
    none: &'a Db,
    name: &Name,
) -> Option<&'a Object>
    requires { none.now ≡ [] }
    ensures { option_copied result ≡ entry_or (candidate_of pins.now repos.now name.now) None }
{
    view_entry(pins, repos, none, name)
}

// Adds what an installed entry's candidate names, where the installed one is a collection.
fn add_newly(
    alloc: Global,
    names: &mut IndexSet<Name>,
    pins: &Pins,
    repos: &[Repo],
    entry: &Object,
    platforms: &[Vec<u8>],
) -> Result<(), AllocError>
    ensures { OnOk result (names.new.keys
        ≡ insert_all bytes_eq names.old.keys (named_newly pins.now repos.now (map (λ platform. platform.items) platforms.now) entry.now)) }
{
    if !is_collection(entry.category) {
        return Ok(());
    }
    let none = Db::new(alloc);
    let newer = candidate_entry(pins, repos, &none, &entry.name);
    add_named(alloc, names, newer, platforms)
}

// The names that the candidates of installed collections name.
#[tactic(auto, using(crate::proofs::SameLaws::gathered_onto))]
fn newly_collected(
    alloc: Global,
    pins: &Pins,
    repos: &[Repo],
    db: &Db,
    platforms: &[Vec<u8>],
) -> Result<IndexSet<Name>, AllocError>
    ensures { IfOk result (λ names. names.keys
        ≡ insert_all bytes_eq [] (flat_map (named_newly pins.now repos.now (map (λ platform. platform.items) platforms.now)) db.now)) }
{
    let mut names = IndexSet::new(alloc);
    for entry in db.entries() {
        add_newly(alloc, &mut names, pins, repos, entry, platforms)?;
    }
    Ok(names)
}

// Whether a package was removed though it is one of these names, unless such ones are installed again.
fn is_forced(db: &Db, named: &IndexSet<Name>, again: bool, name: &Name) -> bool
    ensures { result ≡ is_forced db.now named.now.keys again name.now }
{
    !again && named.contains(name) && !is_installed(db, name)
}

// Whether a package may come that no one asked for.
fn may_come_unasked(
    pins: &Pins,
    repos: &[Repo],
    db: &Db,
    named: &IndexSet<Name>,
    again: bool,
    name: &Name,
) -> bool
    requires { length repos.now ≤ 16 }
    ensures { result ≡ may_come_unasked pins.now repos.now db.now named.now.keys again name.now }
{
    may_come(pins, repos, db, name) && !is_forced(db, named, again, name)
}

// Those of some names that may come though no one asked for them.
fn unasked_among(
    alloc: Global,
    pins: &Pins,
    repos: &[Repo],
    db: &Db,
    named: &IndexSet<Name>,
    again: bool,
    looked: &IndexSet<Name>,
) -> Result<IndexSet<Name>, AllocError>
    requires { length repos.now ≤ 16 }
    ensures { IfOk result (λ names. names.keys
        ≡ insert_all bytes_eq [] (filter (may_come_unasked pins.now repos.now db.now named.now.keys again) looked.now.keys)) }
{
    let mut names = IndexSet::new(alloc);
    for name in looked.as_slice() {
        if may_come_unasked(pins, repos, db, named, again, name) {
            names.insert(name.clone()?)?;
        }
    }
    Ok(names)
}

// Some names, and those that they reach in the view.
fn reached(
    alloc: Global,
    pins: &Pins,
    repos: &[Repo],
    db: &Db,
    view: &Db,
    roots: &[Name],
    platforms: &[Vec<u8>],
) -> Result<IndexSet<Name>, AllocError>
    requires view { (name : List ℕ) → entry_of name view.now ≡ view_entry pins.now repos.now db.now name }
    requires platforms { map (λ platform. platform.items) platforms.now ≡ tree_platforms db.now }
    ensures { IfOk result (λ names. HaveSame names.keys (reached_in_view pins.now repos.now db.now roots.now)) }
{
    needs(alloc, view, roots, platforms)
}

/// The names of the packages that come though no one asked for them: those that a collection's candidate names, and what these reach.
/// It takes time in proportion to the entries, their depends and the pins.
pub fn auto_installed(
    alloc: Global,
    pins: &Pins,
    repos: &[Repo],
    db: &Db,
    view: &Db,
    platforms: &[Vec<u8>],
    again: bool,
) -> Result<IndexSet<Name>, AllocError>
    requires few { length repos.now ≤ 16 }
    requires view { (name : List ℕ) → entry_of name view.now ≡ view_entry pins.now repos.now db.now name }
    requires platforms { map (λ platform. platform.items) platforms.now ≡ tree_platforms db.now }
    ensures { IfOk result (λ names. HaveSame names.keys (auto_installed pins.now repos.now db.now again)) }
{
    let named = collected(alloc, db, platforms)?;
    let newly = newly_collected(alloc, pins, repos, db, platforms)?;
    let roots = unasked_among(alloc, pins, repos, db, &named, again, &newly)?;
    let all = reached(alloc, pins, repos, db, view, roots.as_slice(), platforms)?;
    unasked_among(alloc, pins, repos, db, &named, again, &all)
}

// Whether an installed package may leave.
fn may_leave(pins: &Pins, repos: &[Repo], db: &Db, name: &Name) -> bool
    requires { length repos.now ≤ 16 }
    ensures { result ≡ may_leave pins.now repos.now db.now name.now }
{
    !is_protected(name) && is_installed(db, name) && !is_given(pins, repos, name)
}

// Those of some names that may leave.
fn leaving_among(
    alloc: Global,
    pins: &Pins,
    repos: &[Repo],
    db: &Db,
    looked: &IndexSet<Name>,
) -> Result<IndexSet<Name>, AllocError>
    requires { length repos.now ≤ 16 }
    ensures { IfOk result (λ names. names.keys ≡ insert_all bytes_eq [] (filter (may_leave pins.now repos.now db.now) looked.now.keys)) }
{
    let mut names = IndexSet::new(alloc);
    for name in looked.as_slice() {
        if may_leave(pins, repos, db, name) {
            names.insert(name.clone()?)?;
        }
    }
    Ok(names)
}

/// The names of the packages that leave: those that an installed collection names, and their binary parts. It takes time in proportion
/// to the entries, their depends and the pins.
pub fn auto_removed(
    alloc: Global,
    pins: &Pins,
    repos: &[Repo],
    db: &Db,
    view: &Db,
    platforms: &[Vec<u8>],
) -> Result<IndexSet<Name>, AllocError>
    requires few { length repos.now ≤ 16 }
    requires view { (name : List ℕ) → entry_of name view.now ≡ view_entry pins.now repos.now db.now name }
    requires platforms { map (λ platform. platform.items) platforms.now ≡ tree_platforms db.now }
    ensures { IfOk result (λ names. HaveSame names.keys (auto_removed pins.now repos.now db.now)) }
{
    let named = collected(alloc, db, platforms)?;
    let leaving = leaving_among(alloc, pins, repos, db, &named)?;
    let looked = with_parts(alloc, view, leaving.as_slice(), platforms)?;
    leaving_among(alloc, pins, repos, db, &looked)
}
