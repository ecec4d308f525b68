//! The containers of a repository: their format and their names, and what an entry says of that of a part.
ghost use Rattle.std.specs.Prelude.{◌≡◌, ◌++◌, IfOk, OnOk, true, string_bytes};
ghost use Rattle.std.specs.List.{flat_map};
ghost use Rattle.std.specs.Option.{option_copied};
ghost use Rattle.tl_object.specs.Values.{stripped};
ghost use Rattle.tl_entry.specs.Rising.{is_rising};
ghost use Rattle.tl_entry.specs.Sections.{paths_of};
ghost use Rattle.tl_db.specs.Options.{first_after};
ghost use Rattle.tl_fetch.specs.Containers.{box_of, config_depends, container_format, container_name, is_by_revision, part_listed, part_paths, part_suffix, revision_mark};

use std::alloc::{AllocError, Global};
use tl_db::Db;
use tl_object::{BinFiles, Container, DocFile, Object, Paths};
use tl_path::{Name, Path};
use tl_text::Text;

/// The part of a package that a container holds.
#[derive(Clone, Copy, Debug, PartialEq, Eq)]
pub enum ContainerPart {
    /// The files that it runs on, those of each platform too.
    Run,
    /// The documentation.
    Doc,
    /// The sources.
    Src,
}

impl ContainerPart {
    // How the name of a container ends.
    fn suffix(self) -> &'static str
        ensures { result.now ≡ part_suffix self }
    {
        match self {
            ContainerPart::Run => ".tlc",
            ContainerPart::Doc => ".doc.tlc",
            ContainerPart::Src => ".source.tlc",
        }
    }
}

// The depends of the entry that configures a repository.
fn config_depends(alloc: Global, db: &Db) -> Result<&[Text], AllocError>
    ensures { IfOk result (λ depends. depends.now ≡ config_depends db.now) }
{
    let Ok(name) = Name::parse(alloc, b"00texlive.config") else {
        return Err(AllocError);
    };
    match db.get(&name) {
        Some(entry) => Ok(entry.depends.as_slice()),
        None => Ok(&[]),
    }
}

// What stands behind a text at the front of a line.
fn behind<'a>(line: &'a Text, front: &[u8]) -> Option<&'a [u8]>
    ensures { option_copied result ≡ stripped front.now line.now }
{
    line.bytes().strip_prefix(front)
}

// What stands behind a text at the front of the first line that begins with it.
fn first_behind<'a>(lines: &'a [Text], front: &[u8]) -> Option<&'a [u8]>
    ensures { option_copied result ≡ first_after front.now lines.now }
{
    for line in lines {
        if let Some(value) = behind(line, front) {
            return Some(value);
        }
    }
    None
}

/// The format of a repository's containers, empty where it names none.
pub(crate) fn container_format(alloc: Global, db: &Db) -> Result<&[u8], AllocError>
    ensures { IfOk result (λ format. format.now ≡ container_format db.now) }
{
    let depends = config_depends(alloc, db)?;
    match first_behind(depends, b"container_format/") {
        Some(format) => Ok(format),
        None => Ok(&[]),
    }
}

// Whether the names of a repository's containers say the revision.
fn is_by_revision(alloc: Global, db: &Db) -> Result<bool, AllocError>
    ensures { IfOk result (λ is. is ≡ is_by_revision db.now) }
{
    let depends = config_depends(alloc, db)?;
    Ok(depends.iter().any(|depend| b"container_names/revision".as_slice() == depend.bytes()))
}

// What a container's name says of the revision.
fn revision_mark(alloc: Global, is_said: bool, revision: u32) -> Result<String, AllocError>
    ensures { IfOk result (λ text. string_bytes text ≡ revision_mark is_said revision) }
{
    if is_said {
        Ok(format!(in alloc; ".r{revision}")?)
    } else {
        Ok(String::new(alloc))
    }
}

/// The name of the container of a part of a package, by the revision or without it, as the repository is configured.
pub fn container_name(
    alloc: Global,
    db: &Db,
    entry: &Object,
    part: ContainerPart,
) -> Result<Path, AllocError>
    ensures { IfOk result (λ path. path ≡ container_name db.now entry.now part) }
{
    let is_said = is_by_revision(alloc, db)?;
    let mark = revision_mark(alloc, is_said, entry.revision)?;
    let (name, suffix) = (&entry.name, part.suffix());
    let text = format!(in alloc; "archive/{name}{mark}{suffix}")?;
    match Path::parse(alloc, text.as_bytes()) {
        Ok(path) => Ok(path),
        Err(_) => Err(AllocError),
    }
}

/// What an entry says of the container of a part.
pub(crate) fn box_of(entry: &Object, part: ContainerPart) -> Container
    ensures { result ≡ box_of entry.now part }
{
    match part {
        ContainerPart::Run => entry.run_box,
        ContainerPart::Doc => entry.doc_box,
        ContainerPart::Src => entry.src_box,
    }
}

fn add_paths(alloc: Global, out: &mut Vec<Path>, paths: &Paths) -> Result<(), AllocError>
    ensures { OnOk result (out.new.items ≡ out.old.items ++ paths.now) }
{
    for path in paths.iter() {
        out.push(path.to_path(alloc)?)?;
    }
    Ok(())
}

fn add_doc_paths(out: &mut Vec<Path>, files: &[DocFile]) -> Result<(), AllocError>
    ensures { OnOk result (out.new.items ≡ out.old.items ++ paths_of files.now) }
{
    for file in files {
        out.push(file.path.clone()?)?;
    }
    Ok(())
}

fn add_bin_paths(alloc: Global, out: &mut Vec<Path>, bins: &[BinFiles]) -> Result<(), AllocError>
    ensures { OnOk result (out.new.items ≡ out.old.items ++ flat_map (λ bin. bin.paths) bins.now) }
{
    for bin in bins {
        add_paths(alloc, out, &bin.paths)?;
    }
    Ok(())
}

// The paths of a part, one section after the other.
fn part_listed(alloc: Global, entry: &Object, part: ContainerPart) -> Result<Vec<Path>, AllocError>
    ensures { IfOk result (λ paths. paths.items ≡ part_listed entry.now part) }
{
    let mut paths = Vec::new(alloc);
    match part {
        ContainerPart::Run => {
            add_paths(alloc, &mut paths, &entry.run.paths)?;
            add_bin_paths(alloc, &mut paths, entry.bin.as_slice())?;
        }
        ContainerPart::Doc => add_doc_paths(&mut paths, entry.doc.files.as_slice())?,
        ContainerPart::Src => add_paths(alloc, &mut paths, &entry.src.paths)?,
    }
    Ok(paths)
}

/// The paths that the container of a part has to hold, in the order of their bytes, each once.
pub(crate) fn part_paths(
    alloc: Global,
    entry: &Object,
    part: ContainerPart,
) -> Result<Vec<Path>, AllocError>
    ensures paths { IfOk result (λ paths. paths.items ≡ part_paths entry.now part) }
    ensures rising { IfOk result (λ paths. is_rising (λ path. path) paths.items ≡ true) }
{
    let mut paths = part_listed(alloc, entry, part)?;
    paths.sort_unstable();
    paths.dedup();
    Ok(paths)
}
