//! The names that are reached from others.
ghost use Rattle.std.specs.Prelude.{◌≡◌, ◌<◌, ◌↔◌, ℕ, List, map, length, slice_get, option_copied, IsTrue, IfOk, OnOk};
ghost use Rattle.std.specs.Prelude.{slice_index_or, [], Some};
ghost use Rattle.std.specs.Str.{bytes_eq};
ghost use Rattle.indexmap.specs.IndexSet.{contains, insert_all};
ghost use Rattle.tl_depend.specs.Names.{named_in};
ghost use Rattle.tl_depend.specs.Reach.{IsReached};

use crate::names::add_depends;
use indexmap::IndexSet;
use std::alloc::{AllocError, Global};
use tl_db::Db;
use tl_path::Name;

// Adds the names that the depends of a name's entry stand for, the name being the one at this place.
fn add_next(
    alloc: Global,
    names: &mut IndexSet<Name>,
    place: usize,
    view: &Db,
    platforms: &[Vec<u8>],
) -> Result<(), AllocError>
    requires { place < length names.old.keys }
    ensures { OnOk result (names.new.keys ≡ insert_all bytes_eq names.old.keys
        (named_in view.now (map (λ platform. platform.items) platforms.now) (slice_index_or names.old.keys place []))) }
{
    match view.get(&names.as_slice()[place]) {
        Some(entry) => add_depends(alloc, names, entry.depends.as_slice(), platforms),
        None => Ok(()),
    }
}

/// The names that some roots reach: the roots, and each name for which a depend of the entry of one of them stands. `d.ARCH` stands
/// for `d.P` for each platform P; a depend that is no name stands for nothing. It takes time in proportion to names and depends.
pub fn needs(
    alloc: Global,
    view: &Db,
    roots: &[Name],
    platforms: &[Vec<u8>],
) -> Result<IndexSet<Name>, AllocError>
    ensures { IfOk result (λ names. (name : List ℕ) → IsTrue (contains bytes_eq names name)
        ↔ IsReached view.now (map (λ platform. platform.items) platforms.now) roots.now name) }
{
    let mut names = IndexSet::new(alloc);
    for root in roots {
        names.insert(root.clone()?)?;
    }
    let mut next = 0;
    while next < names.len() {
        add_next(alloc, &mut names, next, view, platforms)?;
        next += 1;
    }
    Ok(names)
}
