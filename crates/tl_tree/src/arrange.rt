//! The work of a step: names to remove and files to write, each once and in byte order.
ghost use Rattle.std.specs.Prelude.{◌≡◌, ℕ, List, ◌++◌, [], ◌∷◌, OnOk, IfOk, IsTrue, true, false, map, ◌||◌};
ghost use Rattle.std.specs.FinSet as set;
ghost use Rattle.std.specs.List.Sorted.{IsPermutation};
ghost use Rattle.tl_model.specs.Volume.{same_name};
ghost use Rattle.tl_journal_text.specs.Records.{is_outside};
ghost use Rattle.tl_tree.specs.Changes.{named_bytes, coming_by, coming};
ghost use Rattle.tl_tree.specs.Staged.{has_name, has_file, files_of, AreOutside, LeavesOut};

use crate::change::Part;
use crate::waiting::Waiting;
use std::alloc::{AllocError, Global};
use std::cmp::Ordering;
use tl_file::FileBytes;
use tl_path::Path;

/// A file that comes, borrowed.
#[derive(Clone, Copy)]
pub struct Coming<'a> {
    /// Its path.
    pub path: &'a Path,
    /// What it holds.
    pub bytes: &'a [u8],
}

/// Names to remove, and files to write after that.
#[derive(Drop)]
pub struct Work<'a> {
    /// The names, in byte order, each once, without those of the files.
    pub removes: Vec<Path>,
    /// The files, in byte order of their paths.
    pub writes: Vec<Coming<'a>>,
}

fn push_files<'a>(out: &mut Vec<Coming<'a>>, files: &'a [FileBytes]) -> Result<(), AllocError>
    ensures { OnOk result (files_of out.new.items ≡ files_of out.old.items ++ map named_bytes files.now) }
{
    for file in files {
        out.push(Coming {
            path: &file.path,
            bytes: file.bytes.as_slice(),
        })?;
    }
    Ok(())
}

fn push_part<'a>(out: &mut Vec<Coming<'a>>, part: &'a Part) -> Result<(), AllocError>
    ensures { OnOk result (files_of out.new.items ≡ files_of out.old.items ++ coming_by part.now) }
{
    match part {
        Part::Put { entry: _, files } => push_files(out, files.as_slice()),
        Part::Write { path, bytes } => {
            out.push(Coming {
                path,
                bytes: bytes.as_slice(),
            })?;
            Ok(())
        }
        Part::Remove { name: _ }
        | Part::Entry { entry: _ }
        | Part::Erase { path: _ }
        | Part::Stream { entry: _ }
        | Part::Later { paths: _ } => Ok(()),
    }
}

fn push_parts<'a>(out: &mut Vec<Coming<'a>>, parts: &'a [Part]) -> Result<(), AllocError>
    ensures { OnOk result (files_of out.new.items ≡ files_of out.old.items ++ coming parts.now) }
{
    for part in parts {
        push_part(out, part)?;
    }
    Ok(())
}

// Whether a file among those in byte order has the path.
fn comes(writes: &[Coming<'_>], path: &Path) -> bool
    ensures { IsTrue result → has_file path.now (files_of writes.now) ≡ true }
{
    let mut low = 0;
    let mut high = writes.len();
    while low < high {
        let middle = low + (high - low) / 2;
        match writes[middle].path.cmp(path) {
            Ordering::Less => low = middle + 1,
            Ordering::Equal => return true,
            Ordering::Greater => high = middle,
        }
    }
    false
}

fn is_last(names: &[Path], path: &Path) -> bool
    ensures { IsTrue result → has_name path.now names.now ≡ true }
{
    match names.last() {
        Some(last) => last == path,
        None => false,
    }
}

// Adds a name that is to be removed, unless it was added last or a file comes there.
fn push_leaving(
    names: &mut Vec<Path>,
    path: Path,
    writes: &[Coming<'_>],
    waiting: &Waiting,
) -> Result<(), AllocError>
    requires { is_outside path ≡ true }
    ensures left { OnOk result ((name : List ℕ) → has_file name (files_of writes.now) ≡ false → set.contains waiting.now name ≡ false
        → has_name name names.new.items ≡ (has_name name names.old.items || same_name name path)) }
    ensures outside { OnOk result (AreOutside names.old.items → AreOutside names.new.items) }
{
    if is_last(names.as_slice(), &path) {
        return Ok(());
    }
    if comes(writes, &path) {
        return Ok(());
    }
    if waiting.has(&path) {
        return Ok(());
    }
    names.push(path)?;
    Ok(())
}

// Names in byte order, each once, without those of files that come.
fn each_once(
    alloc: Global,
    sorted: Vec<Path>,
    writes: &[Coming<'_>],
    waiting: &Waiting,
) -> Result<Vec<Path>, AllocError>
    requires { AreOutside sorted.items }
    ensures left { IfOk result (λ names. LeavesOut (files_of writes.now) waiting.now sorted.items names.items) }
    ensures outside { IfOk result (λ names. AreOutside names.items) }
{
    let mut names = Vec::with_capacity(alloc, sorted.len())?;
    for path in sorted {
        push_leaving(&mut names, path, writes, waiting)?;
    }
    Ok(names)
}

fn all_coming<'a>(
    alloc: Global,
    parts: &'a [Part],
    made: &'a [FileBytes],
) -> Result<Vec<Coming<'a>>, AllocError>
    ensures { IfOk result (λ files. IsPermutation (coming parts.now ++ map named_bytes made.now) (files_of files.items)) }
{
    let mut files = Vec::new(alloc);
    push_parts(&mut files, parts)?;
    push_files(&mut files, made)?;
    files.sort_unstable_by(|a, b| a.path.cmp(b.path));
    Ok(files)
}

/// The work of a step: of the names that leave, those at which no file comes, now or later, and the files of the parts and those
/// made.
pub fn arrange<'a>(
    alloc: Global,
    names: Vec<Path>,
    parts: &'a [Part],
    made: &'a [FileBytes],
    waiting: &Waiting,
) -> Result<Work<'a>, AllocError>
    requires { AreOutside names.items }
    ensures writes { IfOk result (λ work. IsPermutation (coming parts.now ++ map named_bytes made.now) (files_of work.writes.items)) }
    ensures removes { IfOk result (λ work. LeavesOut (files_of work.writes.items) waiting.now names.items work.removes.items) }
    ensures outside { IfOk result (λ work. AreOutside work.removes.items) }
{
    let writes = all_coming(alloc, parts, made)?;
    let mut names = names;
    names.sort_unstable();
    let removes = each_once(alloc, names, writes.as_slice(), waiting)?;
    Ok(Work { removes, writes })
}
