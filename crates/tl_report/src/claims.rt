//! The files of the entries of a database.
ghost use Rattle.std.specs.Prelude.{◌≡◌, ◌++◌, Bool, map, filter, not, IfOk, OnOk};
ghost use Rattle.std.specs.List.{list_any};
ghost use Rattle.tl_path.specs.Reserved.{is_reserved};
ghost use Rattle.tl_entry.specs.FilePaths.{file_paths};
ghost use Rattle.tl_report.specs.Claims.{Claim, claim_by, claims};

use std::alloc::{AllocError, Global};
use tl_db::Db;
use tl_entry::Object;
use tl_path::{Name, Path};

// The files of an entry in the order of their bytes, each once.
fn own_files(alloc: Global, entry: &Object) -> Result<Vec<Path>, AllocError>
    ensures { IfOk result (λ files. files.items ≡ filter (λ path. not (is_reserved path)) (file_paths entry.now)) }
{
    let mut files = entry.file_paths(alloc)?;
    files.retain(|path| !path.is_reserved());
    Ok(files)
}

// Adds the files of an entry, with its name.
fn add_files<'a>(
    alloc: Global,
    files: &mut Vec<(Path, &'a Name)>,
    entry: &'a Object,
) -> Result<(), AllocError>
    ensures { OnOk result (map (λ file. claim_by file.1.now file.0) files.new.items
        ≡ map (λ file. claim_by file.1.now file.0) files.old.items
        ++ map (claim_by entry.now.name) (filter (λ path. not (is_reserved path)) (file_paths entry.now))) }
{
    for path in own_files(alloc, entry)? {
        files.push((path, &entry.name))?;
    }
    Ok(())
}

/// The files of all entries, each with its entry's name. A path that an entry lists twice is there once.
pub(crate) fn files_of<'a>(alloc: Global, db: &'a Db) -> Result<Vec<(Path, &'a Name)>, AllocError>
    ensures { IfOk result (λ files. (test : Claim → Bool)
        → list_any test (map (λ file. claim_by file.1.now file.0) files.items) ≡ list_any test (claims db.now)) }
{
    let mut files = Vec::new(alloc);
    for entry in db.entries() {
        add_files(alloc, &mut files, entry)?;
    }
    Ok(files)
}
