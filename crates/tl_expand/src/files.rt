//! The sections of an entry, with the files that are there.
ghost use Rattle.std.specs.Prelude.{◌≡◌, ◌+◌, ◌/◌, ◌++◌, ◌∷◌, [], true, filter, map, min, IfOk, OnOk};
ghost use Rattle.tl_entry.specs.Rising.{is_rising};
ghost use Rattle.tl_index.specs.Entries.{path_of};
ghost use Rattle.tl_expand.specs.Choices.{living};
ghost use Rattle.tl_expand.specs.Objects.{blocks_of, file_blocks, living_paths, files_of, doc_files_of, plain_file};

use crate::choice::Chosen;
use std::alloc::{AllocError, Global};
use tl_entry::{DocFile, DocFileList, DocFiles, Files, Paths};
use tl_index::Hit;
use tl_path::Path;

fn file_blocks(hit: &Hit) -> u64
    ensures { result ≡ file_blocks hit.now }
{
    hit.leaf.size.div_ceil(4096)
}

// The blocks of the files that are there.
fn blocks_of(hits: &[Hit]) -> u64
    ensures { result ≡ blocks_of (living hits.now) }
{
    let mut blocks: u64 = 0;
    for hit in hits {
        if hit.leaf.lives {
            blocks = blocks.saturating_add(file_blocks(hit));
        }
    }
    blocks
}

fn living_paths(alloc: Global, hits: &[Hit]) -> Result<Vec<Path>, AllocError>
    ensures { IfOk result (λ paths. paths.items ≡ living_paths hits.now) }
{
    let mut paths = Vec::new(alloc);
    for hit in hits {
        if hit.leaf.lives {
            paths.push(hit.path.clone()?)?;
        }
    }
    Ok(paths)
}

fn paths_of(alloc: Global, chosen: &Chosen) -> Result<Paths, AllocError>
    ensures { IfOk result (λ paths. paths ≡ living_paths chosen.now) }
{
    let paths = living_paths(alloc, chosen.hits())?;
    Paths::of(alloc, &paths)
}

// A section with the files that are there.
pub(crate) fn files_of(alloc: Global, chosen: &Chosen) -> Result<Files, AllocError>
    ensures { IfOk result (λ files. files ≡ files_of chosen.now) }
{
    Ok(Files {
        blocks: blocks_of(chosen.hits()),
        paths: paths_of(alloc, chosen)?,
    })
}

fn plain_file(path: Path) -> DocFile
    ensures { result ≡ plain_file path }
{
    DocFile {
        path,
        details: None,
        language: None,
    }
}

fn plain_files(alloc: Global, paths: Vec<Path>) -> Result<Vec<DocFile>, AllocError>
    ensures { IfOk result (λ files. files.items ≡ map plain_file paths.items) }
{
    let mut files = Vec::with_capacity(alloc, paths.len())?;
    for path in paths {
        files.push(plain_file(path))?;
    }
    Ok(files)
}

// The section of documentation with the files that are there.
pub(crate) fn doc_files_of(alloc: Global, chosen: &Chosen) -> Result<DocFiles, AllocError>
    ensures { IfOk result (λ files. files ≡ doc_files_of chosen.now) }
{
    let paths = living_paths(alloc, chosen.hits())?;
    let files = plain_files(alloc, paths)?;
    Ok(DocFiles {
        blocks: blocks_of(chosen.hits()),
        files: DocFileList::new(files),
    })
}
