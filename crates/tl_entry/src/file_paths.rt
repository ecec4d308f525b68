//! The paths of an entry's files.
ghost use Rattle.std.specs.Prelude.{◌≡◌, ◌++◌, List, ℕ, IfOk, OnOk, true};
ghost use Rattle.std.specs.List.{flat_map};
ghost use Rattle.tl_entry.specs.Rising.{is_rising, has_key};
ghost use Rattle.tl_entry.specs.Sections.{paths_of};
ghost use Rattle.tl_entry.specs.FilePaths.{listed_paths, file_paths};

use crate::object::{BinFiles, DocFile, Object};
use crate::paths::Paths;
use std::alloc::{AllocError, Global};
use tl_path::Path;

pub(crate) fn append_paths(
    alloc: Global,
    out: &mut Vec<Path>,
    paths: &Paths,
) -> Result<(), AllocError>
    ensures { OnOk result (out.new.items ≡ out.old.items ++ paths.now) }
{
    out.reserve(paths.len())?;
    for path in paths.iter() {
        out.push(path.to_path(alloc)?)?;
    }
    Ok(())
}

fn append_doc_paths(out: &mut Vec<Path>, files: &[DocFile]) -> Result<(), AllocError>
    ensures { OnOk result (out.new.items ≡ out.old.items ++ paths_of files.now) }
{
    out.reserve(files.len())?;
    for file in files {
        out.push(file.path.clone()?)?;
    }
    Ok(())
}

fn append_bin_paths(alloc: Global, out: &mut Vec<Path>, bins: &[BinFiles]) -> Result<(), AllocError>
    ensures { OnOk result (out.new.items ≡ out.old.items ++ flat_map (λ bin. bin.paths) bins.now) }
{
    for bin in bins {
        append_paths(alloc, out, &bin.paths)?;
    }
    Ok(())
}

impl Object {
    fn listed_paths(&self, alloc: Global) -> Result<Vec<Path>, AllocError>
        ensures { IfOk result (λ paths. paths.items ≡ listed_paths self.now) }
    {
        let mut paths = Vec::new(alloc);
        append_paths(alloc, &mut paths, &self.run.paths)?;
        append_doc_paths(&mut paths, self.doc.files.as_slice())?;
        append_paths(alloc, &mut paths, &self.src.paths)?;
        append_bin_paths(alloc, &mut paths, self.bin.as_slice())?;
        Ok(paths)
    }

    /// The paths of all sections in the order of their bytes, each once.
    pub fn file_paths(&self, alloc: Global) -> Result<Vec<Path>, AllocError>
        ensures paths { IfOk result (λ paths. paths.items ≡ file_paths self.now) }
        ensures rising { IfOk result (λ paths. is_rising (λ path. path) paths.items ≡ true) }
        ensures members { IfOk result (λ paths. (path : List ℕ)
            → has_key (λ p. p) path paths.items ≡ has_key (λ p. p) path (listed_paths self.now)) }
    {
        let mut paths = self.listed_paths(alloc)?;
        paths.sort_unstable();
        paths.dedup();
        Ok(paths)
    }
}
