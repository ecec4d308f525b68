//! The names whose entries have changed.
ghost use Rattle.std.specs.Prelude.{◌≡◌, ◌&&◌, ◌||◌, ℕ, List, bytes_eq, IfOk, OnOk};
ghost use Rattle.std.specs.HashSet.{contains_text};
ghost use Rattle.tl_trigger.specs.Stale.{is_changed, HasChanges};

use crate::changed::is_changed;
use std::alloc::{AllocError, Global};
use std::collections::HashSet;
use tl_db::Db;
use tl_path::Name;

// Adds a name.
fn add_name(alloc: Global, names: &mut HashSet<String>, name: &str) -> Result<(), AllocError>
    ensures { OnOk result ((text : List ℕ) → contains_text names.new text
        ≡ (contains_text names.old text || bytes_eq name.now text)) }
{
    names.insert(String::from_str(alloc, name)?)?;
    Ok(())
}

// Adds a name, where its entry has changed.
fn add_changed(
    alloc: Global,
    names: &mut HashSet<String>,
    old: &Db,
    new: &Db,
    name: &Name,
) -> Result<(), AllocError>
    ensures { OnOk result ((text : List ℕ) → contains_text names.new text
        ≡ (contains_text names.old text || (is_changed old.now new.now name.now && bytes_eq name.now text))) }
{
    if is_changed(alloc, old, new, name)? {
        return add_name(alloc, names, name.text());
    }
    Ok(())
}

/// The names whose entries aren't the same in two databases; each of them is among those that are given.
pub(crate) fn changed_names(
    alloc: Global,
    old: &Db,
    new: &Db,
    changed: &[Name],
) -> Result<HashSet<String>, AllocError>
    requires { HasChanges old.now new.now changed.now }
    ensures { IfOk result (λ names. (text : List ℕ) → contains_text names text ≡ is_changed old.now new.now text) }
{
    let mut names = HashSet::new(alloc);
    for name in changed {
        add_changed(alloc, &mut names, old, new, name)?;
    }
    Ok(names)
}
