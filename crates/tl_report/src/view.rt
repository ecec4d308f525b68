//! The entries that repositories and a tree have together.
ghost use Rattle.std.specs.Prelude.{◌≡◌, ◌++◌, map, IfOk, OnOk};
ghost use Rattle.tl_report.specs.View.{all_names, entry_names, known_names, view_entries};

use std::alloc::{AllocError, Global};
use tl_db::{Db, Repo};
use tl_entry::Object;
use tl_path::Name;
use tl_pin::{Pins, view_entry};

// Adds the names of a database.
fn push_names<'a>(names: &mut Vec<&'a Name>, db: &'a Db) -> Result<(), AllocError>
    ensures { OnOk result (map (λ n. n.now) names.new.items ≡ map (λ n. n.now) names.old.items ++ entry_names db.now) }
{
    for entry in db.entries() {
        names.push(&entry.name)?;
    }
    Ok(())
}

// The names of all databases, one behind the other.
fn all_names<'a>(
    alloc: Global,
    repos: &'a [Repo],
    installed: &'a Db,
) -> Result<Vec<&'a Name>, AllocError>
    ensures { IfOk result (λ names. map (λ n. n.now) names.items ≡ all_names repos.now installed.now) }
{
    let mut names = Vec::new(alloc);
    for repo in repos {
        push_names(&mut names, &repo.db)?;
    }
    push_names(&mut names, installed)?;
    Ok(names)
}

// The names that repositories or a tree have, in the order of their bytes, each once.
fn known_names<'a>(
    alloc: Global,
    repos: &'a [Repo],
    installed: &'a Db,
) -> Result<Vec<&'a Name>, AllocError>
    ensures { IfOk result (λ names. map (λ n. n.now) names.items ≡ known_names repos.now installed.now) }
{
    let mut names = all_names(alloc, repos, installed)?;
    names.sort_unstable();
    names.dedup();
    Ok(names)
}

/// The entries of the view in the order of their names: of each name its candidate's, or else the installed one. n names cost n log n
/// comparisons, and each one a look at the pins and at the databases.
pub(crate) fn view_entries<'a>(
    alloc: Global,
    pins: &Pins,
    repos: &'a [Repo],
    installed: &'a Db,
) -> Result<Vec<&'a Object>, AllocError>
    ensures { IfOk result (λ entries. map (λ e. e.now) entries.items ≡ view_entries pins.now repos.now installed.now) }
{
    let names = known_names(alloc, repos, installed)?;
    let mut entries = Vec::new(alloc);
    for name in &names {
        if let Some(entry) = view_entry(pins, repos, installed, name) {
            entries.push(entry)?;
        }
    }
    Ok(entries)
}
