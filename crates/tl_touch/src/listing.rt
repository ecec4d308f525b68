//! The paths that an entry lists.
ghost use Rattle.std.specs.Prelude.{◌≡◌, ◌++◌, IfOk, OnOk};
ghost use Rattle.std.specs.List.{flat_map, list_any, count_by};
ghost use Rattle.tl_path.specs.Components.{is_touching};
ghost use Rattle.tl_entry.specs.Sections.{paths_of};
ghost use Rattle.tl_entry.specs.FilePaths.{listed_paths};

use std::alloc::{AllocError, Global};
use tl_entry::{BinFiles, DocFile, Object, Paths};
use tl_path::Path;

fn push_paths(alloc: Global, listed: &mut Vec<Path>, paths: &Paths) -> Result<(), AllocError>
    ensures { OnOk result (listed.new.items ≡ listed.old.items ++ paths.now) }
{
    for path in paths.iter() {
        listed.push(path.to_path(alloc)?)?;
    }
    Ok(())
}

fn push_doc_paths(listed: &mut Vec<Path>, files: &[DocFile]) -> Result<(), AllocError>
    ensures { OnOk result (listed.new.items ≡ listed.old.items ++ paths_of files.now) }
{
    for file in files {
        listed.push(file.path.clone()?)?;
    }
    Ok(())
}

fn push_bin_paths(
    alloc: Global,
    listed: &mut Vec<Path>,
    bins: &[BinFiles],
) -> Result<(), AllocError>
    ensures { OnOk result (listed.new.items ≡ listed.old.items ++ flat_map (λ bin. bin.paths) bins.now) }
{
    for bin in bins {
        push_paths(alloc, listed, &bin.paths)?;
    }
    Ok(())
}

/// The paths of an entry's sections, one section after the other: one that two of them have comes twice.
pub fn listed_paths(alloc: Global, entry: &Object) -> Result<Vec<Path>, AllocError>
    ensures { IfOk result (λ paths. paths.items ≡ listed_paths entry.now) }
{
    let mut listed = Vec::new(alloc);
    push_paths(alloc, &mut listed, &entry.run.paths)?;
    push_doc_paths(&mut listed, entry.doc.files.as_slice())?;
    push_paths(alloc, &mut listed, &entry.src.paths)?;
    push_bin_paths(alloc, &mut listed, entry.bin.as_slice())?;
    Ok(listed)
}

/// How many of the paths that an entry lists touch a path.
pub fn count_touching(alloc: Global, entry: &Object, path: &Path) -> Result<usize, AllocError>
    ensures { IfOk result (λ count. count ≡ count_by (is_touching path.now) (listed_paths entry.now)) }
{
    let listed = listed_paths(alloc, entry)?;
    Ok(listed.iter().filter(|other| path.touches(other)).count())
}

/// Whether one of the paths that an entry lists touches a path.
pub fn has_touching(alloc: Global, entry: &Object, path: &Path) -> Result<bool, AllocError>
    ensures { IfOk result (λ has. has ≡ list_any (is_touching path.now) (listed_paths entry.now)) }
{
    let listed = listed_paths(alloc, entry)?;
    Ok(listed.iter().any(|other| path.touches(other)))
}
