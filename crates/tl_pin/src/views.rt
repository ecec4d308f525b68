//! The entries that the repositories and a tree have together.
ghost use Rattle.std.specs.Prelude.{◌≡◌, ◌||◌, ℕ, List, map, IfOk, OnOk, option_copied};
ghost use Rattle.tl_entry.specs.Rising.{has_key, insert_by};
ghost use Rattle.tl_db.specs.Entries.{entry_of, others};
ghost use Rattle.tl_pin.specs.Candidates.{view_entry, is_known};

use crate::offers::chosen;
use crate::pins::Pins;
use std::alloc::{AllocError, Global};
use tl_db::{Db, Repo};
use tl_object::Object;
use tl_path::Name;

// Adds the names of a database.
fn push_names<'a>(names: &mut Vec<&'a Name>, db: &'a Db) -> Result<(), AllocError>
    ensures { OnOk result ((name : List ℕ) → has_key (λ n. n) name (map (λ n. n.now) names.new.items)
        ≡ (has_key (λ n. n) name (map (λ n. n.now) names.old.items) || has_key (λ o. o.name) name db.now)) }
{
    for entry in db.entries() {
        names.push(&entry.name)?;
    }
    Ok(())
}

// The names that a repository or a tree has, in order, each once.
fn known_names<'a>(
    alloc: Global,
    repos: &'a [Repo],
    installed: &'a Db,
) -> Result<Vec<&'a Name>, AllocError>
    ensures { IfOk result (λ names. (name : List ℕ) → has_key (λ n. n) name (map (λ n. n.now) names.items)
        ≡ is_known repos.now installed.now name) }
{
    let mut names = Vec::new(alloc);
    for repo in repos {
        push_names(&mut names, &repo.db)?;
    }
    push_names(&mut names, installed)?;
    names.sort_unstable();
    names.dedup();
    Ok(names)
}

/// The entry of a name in the view: that of its candidate, or else the installed one. Takes no memory.
pub fn view_entry<'a>(
    pins: &Pins,
    repos: &'a [Repo],
    installed: &'a Db,
    name: &Name,
) -> Option<&'a Object>
    ensures { option_copied result ≡ view_entry pins.now repos.now installed.now name.now }
{
    match chosen(pins, repos, name) {
        Some((_, entry)) => Some(entry),
        None => installed.get(name),
    }
}

fn put_copy(alloc: Global, view: &mut Db, entry: &Object) -> Result<(), AllocError>
    ensures { OnOk result (view.new ≡ insert_by (λ o. o.name) entry.now (others entry.now.name view.old)) }
{
    view.with(entry.copy(alloc)?)
}

/// The view of some repositories and a tree: each name with a candidate has its candidate's entry, each installed name without one
/// its installed entry. Each pin is looked at once for a name at most.
pub fn view(alloc: Global, pins: &Pins, repos: &[Repo], installed: &Db) -> Result<Db, AllocError>
    ensures { IfOk result (λ view. (name : List ℕ) → entry_of name view ≡ view_entry pins.now repos.now installed.now name) }
{
    let names = known_names(alloc, repos, installed)?;
    let mut view = Db::new(alloc);
    for name in &names {
        if let Some(entry) = view_entry(pins, repos, installed, name) {
            put_copy(alloc, &mut view, entry)?;
        }
    }
    Ok(view)
}
