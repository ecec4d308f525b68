//! The files of sources.
ghost use Rattle.std.specs.Prelude.{◌≡◌, ◌++◌, ◌∷◌, [], IfOk, IfErr, OnOk};
ghost use Rattle.std.specs.List.{filter_map};
ghost use Rattle.tl_master.specs.Answers.{Answers, IsOwn};
ghost use Rattle.tl_master.specs.Sources.{name_if, source_at, source_files, source_name};

use crate::error::MasterError;
use std::alloc::{AllocError, Global};
use tl_kind::What;
use tl_marks::MarkedPath;
use tl_path::{Name, NameError, Path};

/// The file of a package's source: the package, the mark of the file, and its path. Their order is by the package.
#[derive(PartialEq, Eq, PartialOrd, Ord, Drop)]
pub(crate) struct SourceFile {
    pub(crate) name: Name,
    pub(crate) mark: u32,
    pub(crate) path: Path,
}

// The name of a text, where it is one.
fn name_of(alloc: Global, text: &[u8]) -> Result<Option<Name>, AllocError>
    ensures { IfOk result (λ name. name ≡ name_if text.now) }
{
    match Name::parse(alloc, text) {
        Ok(name) => Ok(Some(name)),
        Err(NameError::BadName { .. }) => Ok(None),
        Err(NameError::NoMemory) => Err(AllocError),
    }
}

// The package whose source has a path.
fn source_name(alloc: Global, path: &[u8]) -> Result<Option<Name>, AllocError>
    ensures { IfOk result (λ name. name ≡ source_name path.now) }
{
    let Some(file) = path.strip_prefix(b"tlpkg/tlpsrc/") else {
        return Ok(None);
    };
    match file.strip_suffix(b".tlpsrc") {
        Some(text) => name_of(alloc, text),
        None => Ok(None),
    }
}

// Adds a listed path, where it is there and is that of a source.
fn push_source(
    alloc: Global,
    files: &mut Vec<SourceFile>,
    marked: &MarkedPath,
) -> Result<(), AllocError>
    ensures { OnOk result (files.new.items ≡ files.old.items ++ filter_map source_at (marked.now ∷ [])) }
{
    if !marked.lives {
        return Ok(());
    }
    let Some(name) = source_name(alloc, marked.path.bytes())? else {
        return Ok(());
    };
    let mark = marked.mark;
    let path = marked.path.clone()?;
    files.push(SourceFile { name, mark, path })?;
    Ok(())
}

// The files of sources among listed paths.
fn all_sources(alloc: Global, listing: &[MarkedPath]) -> Result<Vec<SourceFile>, AllocError>
    ensures { IfOk result (λ files. files.items ≡ filter_map source_at listing.now) }
{
    let mut files = Vec::new(alloc);
    for marked in listing {
        push_source(alloc, &mut files, marked)?;
    }
    Ok(files)
}

/// The files of sources among listed paths, in the order of the packages. `TooLarge` of `Sources` where there are more than the limit.
pub(crate) fn source_files(
    alloc: Global,
    listing: &[MarkedPath],
) -> Result<Vec<SourceFile>, MasterError>
    ensures files { Answers (λ files. files.items) result (source_files listing.now) }
    ensures fault { IfErr result IsOwn }
{
    let mut files = all_sources(alloc, listing)?;
    files.sort_unstable();
    let what = What::Sources;
    let limit = what.limit();
    if files.len() as u64 > limit {
        return Err(MasterError::TooLarge { what, limit });
    }
    Ok(files)
}
