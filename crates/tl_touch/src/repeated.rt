//! Paths in order, with those that come more than once.
ghost use Rattle.std.specs.Prelude.{◌≡◌, ◌++◌, ℕ, List, ◌∷◌, [], ◌||◌, IfOk, OnOk, if◌then◌else◌};
ghost use Rattle.std.specs.List.{list_any};
ghost use Rattle.std.specs.Str.{bytes_eq};
ghost use Rattle.indexmap.specs.IndexSet.{insert_all};
ghost use Rattle.tl_path.specs.Components.{is_below};
ghost use Rattle.tl_entry.specs.Rising.{has_key};
ghost use Rattle.tl_touch.specs.Listing.{AreListed};

use crate::set::PathSet;
use indexmap::IndexSet;
use std::alloc::{AllocError, Global};
use tl_path::Path;

/// Paths in order, and those that come more than once.
#[derive(Drop)]
pub struct Listed {
    all: PathSet,
    repeated: PathSet,
}

// Adds a path to those that were seen, or where it is one of them to those that come again.
fn see(seen: &mut IndexSet<Path>, again: &mut Vec<Path>, path: &Path) -> Result<(), AllocError>
    ensures seen { OnOk result (seen.new.keys ≡ insert_all bytes_eq seen.old.keys (path.now ∷ [])) }
    ensures again { OnOk result (again.new.items
        ≡ again.old.items ++ (if list_any (bytes_eq path.now) seen.old.keys then path.now ∷ [] else [])) }
{
    if seen.contains(path) {
        again.push(path.clone()?)?;
    } else {
        seen.insert(path.clone()?)?;
    }
    Ok(())
}

// The paths that were seen, in order.
fn set_of(alloc: Global, seen: &IndexSet<Path>) -> Result<PathSet, AllocError>
    ensures { IfOk result (λ set. (path : List ℕ) → has_key (λ p. p) path set ≡ has_key (λ p. p) path seen.now.keys) }
{
    let paths = seen.as_slice().to_vec(alloc)?;
    Ok(PathSet::of(paths))
}

impl Listed {
    /// These paths, which may come in any order. It takes time in proportion to n log n for n paths.
    pub fn of(alloc: Global, paths: &[Path]) -> Result<Listed, AllocError>
        ensures { IfOk result (λ listed. AreListed paths.now listed) }
    {
        let mut seen = IndexSet::new(alloc);
        let mut again = Vec::new(alloc);
        for path in paths {
            see(&mut seen, &mut again, path)?;
        }
        Ok(Listed {
            all: set_of(alloc, &seen)?,
            repeated: PathSet::of(again),
        })
    }

    /// Whether a path comes more than once or another one touches it.
    pub fn has_other(&self, alloc: Global, path: &Path) -> Result<bool, AllocError>
        ensures { IfOk result (λ has. has ≡ (has_key (λ p. p) path.now self.now.repeated
            || (list_any (λ other. is_below path.now other) self.now.all || list_any (λ other. is_below other path.now) self.now.all))) }
    {
        if self.repeated.has(path.bytes()) {
            return Ok(true);
        }
        self.all.touches_beside(alloc, path)
    }
}
