//! The names that leave, and the paths whose bytes come later.
ghost use Rattle.std.specs.Prelude.{◌≡◌, ◌++◌, [], ◌∷◌, OnOk, IfOk, not, filter, map};
ghost use Rattle.std.specs.List.{flat_map};
ghost use Rattle.tl_path.specs.Reserved.{is_reserved};
ghost use Rattle.tl_db.specs.Entries.{entry_of};
ghost use Rattle.tl_tree.specs.Changes.{path_of, bin_paths, own, own_of, leaving_by, leaving, later_by, later};

use crate::change::Part;
use std::alloc::{AllocError, Global};
use tl_db::Db;
use tl_object::{BinFiles, DocFile, Object, Paths};
use tl_path::{Name, Path, PathRef};

// Adds a path, unless it is reserved.
fn push_own(alloc: Global, out: &mut Vec<Path>, path: PathRef<'_>) -> Result<(), AllocError>
    ensures { OnOk result (out.new.items ≡ out.old.items ++ filter (λ p. not (is_reserved p)) (path.entry ∷ [])) }
{
    if path.is_reserved() {
        return Ok(());
    }
    out.push(path.to_path(alloc)?)?;
    Ok(())
}

fn push_paths(alloc: Global, out: &mut Vec<Path>, paths: &Paths) -> Result<(), AllocError>
    ensures { OnOk result (out.new.items ≡ out.old.items ++ filter (λ p. not (is_reserved p)) paths.now) }
{
    for path in paths.iter() {
        push_own(alloc, out, path)?;
    }
    Ok(())
}

fn push_docs(alloc: Global, out: &mut Vec<Path>, files: &[DocFile]) -> Result<(), AllocError>
    ensures { OnOk result (out.new.items ≡ out.old.items ++ filter (λ p. not (is_reserved p)) (map path_of files.now)) }
{
    for file in files {
        push_own(alloc, out, file.path.view())?;
    }
    Ok(())
}

fn push_bins(alloc: Global, out: &mut Vec<Path>, bins: &[BinFiles]) -> Result<(), AllocError>
    ensures { OnOk result (out.new.items ≡ out.old.items ++ filter (λ p. not (is_reserved p)) (flat_map bin_paths bins.now)) }
{
    for bin in bins {
        push_paths(alloc, out, &bin.paths)?;
    }
    Ok(())
}

// Adds the files of an entry.
fn push_entry(alloc: Global, out: &mut Vec<Path>, entry: &Object) -> Result<(), AllocError>
    ensures { OnOk result (out.new.items ≡ out.old.items ++ own entry.now) }
{
    push_paths(alloc, out, &entry.run.paths)?;
    push_docs(alloc, out, entry.doc.files.as_slice())?;
    push_paths(alloc, out, &entry.src.paths)?;
    push_bins(alloc, out, entry.bin.as_slice())
}

// Adds the files of the entry with a name, if an entry has it.
fn push_named(alloc: Global, out: &mut Vec<Path>, db: &Db, name: &Name) -> Result<(), AllocError>
    ensures { OnOk result (out.new.items ≡ out.old.items ++ own_of (entry_of name.now db.now)) }
{
    match db.get(name) {
        Some(entry) => push_entry(alloc, out, entry),
        None => Ok(()),
    }
}

fn push_part(alloc: Global, out: &mut Vec<Path>, db: &Db, part: &Part) -> Result<(), AllocError>
    ensures { OnOk result (out.new.items ≡ out.old.items ++ leaving_by db.now part.now) }
{
    match part {
        Part::Put { entry, files: _ } => push_named(alloc, out, db, &entry.name),
        Part::Stream { entry } => push_named(alloc, out, db, &entry.name),
        Part::Remove { name } => push_named(alloc, out, db, name),
        Part::Erase { path } => {
            out.push(path.clone()?)?;
            Ok(())
        }
        Part::Entry { entry: _ } | Part::Write { path: _, bytes: _ } | Part::Later { paths: _ } => {
            Ok(())
        }
    }
}

/// The names that leave because of a change, unless it brings them.
pub fn leaving(alloc: Global, db: &Db, parts: &[Part]) -> Result<Vec<Path>, AllocError>
    ensures { IfOk result (λ names. names.items ≡ leaving db.now parts.now) }
{
    let mut out = Vec::new(alloc);
    for part in parts {
        push_part(alloc, &mut out, db, part)?;
    }
    Ok(out)
}

fn push_each(out: &mut Vec<Path>, paths: &[Path]) -> Result<(), AllocError>
    ensures { OnOk result (out.new.items ≡ out.old.items ++ paths.now) }
{
    for path in paths {
        out.push(path.clone()?)?;
    }
    Ok(())
}

fn push_later(alloc: Global, out: &mut Vec<Path>, part: &Part) -> Result<(), AllocError>
    ensures { OnOk result (out.new.items ≡ out.old.items ++ later_by part.now) }
{
    match part {
        Part::Stream { entry } => push_entry(alloc, out, entry),
        Part::Later { paths } => push_each(out, paths.as_slice()),
        Part::Put { entry: _, files: _ }
        | Part::Remove { name: _ }
        | Part::Entry { entry: _ }
        | Part::Write { path: _, bytes: _ }
        | Part::Erase { path: _ } => Ok(()),
    }
}

/// The paths of a change whose bytes come later.
pub fn later(alloc: Global, parts: &[Part]) -> Result<Vec<Path>, AllocError>
    ensures { IfOk result (λ paths. paths.items ≡ later parts.now) }
{
    let mut out = Vec::new(alloc);
    for part in parts {
        push_later(alloc, &mut out, part)?;
    }
    Ok(out)
}
