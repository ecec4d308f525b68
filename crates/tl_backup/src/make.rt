//! The making of a backup.
ghost use Rattle.std.specs.Prelude.{◌≡◌, ◌++◌, ◌∷◌, [], OnOk, Some, map, true, IfOk, IfErr};
ghost use Rattle.std.specs.Option.{option_copied};
ghost use Rattle.tl_model.specs.Causes.{Rose};
ghost use Rattle.tl_model.specs.Seen.{Told};
ghost use Rattle.tl_entry.specs.Rising.{is_rising};
ghost use Rattle.tl_frame.specs.Frames.{paths_rise};
ghost use Rattle.tl_backup.specs.Asked.{Answers, IsAsked, IsCausedBy, tree_in};
ghost use Rattle.tl_backup.specs.Autobackup.{revision_at};
ghost use Rattle.tl_backup.specs.Form.{backup_by, installed};
ghost use Rattle.tl_backup.specs.Frames.{IsBackupPart, backup_bytes, files_at, frame_within, missing_path, own_paths, package_backup};

use crate::error::BackupError;
use crate::names::backup_path;
use std::alloc::{AllocError, Global};
use tl_file::{Bytes, FileBytes};
use tl_frame::write_frame;
use tl_host::Host;
use tl_kind::What;
use tl_object::{Object, write_object};
use tl_path::{Name, Path};
use tl_tree::{ContentsError, Part, Tree};

/// The paths of an entry's files that aren't reserved, in the order of their bytes.
pub(crate) fn own_paths(alloc: Global, entry: &Object) -> Result<Vec<Path>, AllocError>
    ensures paths { IfOk result (λ paths. paths.items ≡ own_paths entry.now) }
    ensures rising { IfOk result (λ paths. is_rising (λ path. path) paths.items ≡ true) }
{
    let mut paths = entry.file_paths(alloc)?;
    paths.retain(|path| !path.is_reserved());
    Ok(paths)
}

/// The first of some paths at which no file is.
pub(crate) fn missing_path<'a, H: Host>(
    tree: &mut Tree<H>,
    paths: &'a [Path],
) -> Result<Option<&'a Path>, BackupError>
    ensures found { Told H.tells (IfOk result (λ found. option_copied found ≡ missing_path (tree_in tree.old) paths.now)) }
    ensures fault { IfErr result (λ e. e ≡ BackupError.HostFault) }
    ensures asked { IsAsked H.tells tree.old tree.new }
    ensures cause { IfErr result (IsCausedBy tree.old tree.new) }
{
    for path in paths {
        if !tree.present(path)? {
            return Ok(Some(path));
        }
    }
    Ok(None)
}

// A file of a tree, within its limit.
fn read_file<H: Host>(
    alloc: Global,
    tree: &mut Tree<H>,
    path: &Path,
) -> Result<FileBytes, BackupError>
    ensures file { Told H.tells (Answers (λ file. file ∷ []) result (files_at (tree_in tree.old) (path.now ∷ []))) }
    ensures path { IfOk result (λ file. file.path ≡ path.now) }
    ensures asked { IsAsked H.tells tree.old tree.new }
    ensures cause { IfErr result (IsCausedBy tree.old tree.new) }
{
    match tree.contents(alloc, path.view(), What::File) {
        Ok(Some(bytes)) => Ok(FileBytes {
            path: path.clone()?,
            bytes: Bytes::new(bytes),
        }),
        Ok(None) => Err(BackupError::FileMissing {
            path: path.clone()?,
        }),
        Err(ContentsError::TooLarge { what, limit }) => Err(BackupError::TooLarge { what, limit }),
        Err(ContentsError::HostFault) => Err(BackupError::HostFault),
        Err(ContentsError::NoMemory) => Err(BackupError::NoMemory),
    }
}

fn push_file(files: &mut Vec<FileBytes>, file: FileBytes) -> Result<(), AllocError>
    ensures { OnOk result (files.new.items ≡ files.old.items ++ file ∷ []) }
{
    files.push(file)?;
    Ok(())
}

// The files of a tree at some paths, each within its limit.
fn read_files<H: Host>(
    alloc: Global,
    tree: &mut Tree<H>,
    paths: &[Path],
) -> Result<Vec<FileBytes>, BackupError>
    ensures files { Told H.tells (Answers (λ files. files.items) result (files_at (tree_in tree.old) paths.now)) }
    ensures paths { IfOk result (λ files. map (λ file. file.path) files.items ≡ paths.now) }
    ensures asked { IsAsked H.tells tree.old tree.new }
    ensures cause { IfErr result (IsCausedBy tree.old tree.new) }
{
    let mut files = Vec::new(alloc);
    for path in paths {
        push_file(&mut files, read_file(alloc, tree, path)?)?;
    }
    Ok(files)
}

const TOO_MANY: usize = 4_294_967_296;

// The frame of an entry's text and of files, within its limit.
fn frame_within(alloc: Global, text: &[u8], files: &[FileBytes]) -> Result<Vec<u8>, BackupError>
    requires { paths_rise files.now ≡ true }
    ensures answer { Answers (λ bytes. bytes.items) result (frame_within text.now files.now) }
    ensures quiet { IfErr result (λ e. e ≡ BackupError.HostFault → ⊥) }
{
    let what = What::Frame;
    let limit = what.limit();
    if text.len() >= TOO_MANY || files.len() >= TOO_MANY {
        return Err(BackupError::TooLarge { what, limit });
    }
    let bytes = write_frame(alloc, text, files)?;
    if bytes.len() as u64 > limit {
        return Err(BackupError::TooLarge { what, limit });
    }
    Ok(bytes)
}

// The bytes of a backup, by an entry's text and the paths of its files.
fn backup_bytes<H: Host>(
    alloc: Global,
    tree: &mut Tree<H>,
    text: &[u8],
    paths: &[Path],
) -> Result<Vec<u8>, BackupError>
    requires { is_rising (λ path. path) paths.now ≡ true }
    ensures bytes { Told H.tells (Answers (λ bytes. bytes.items) result (backup_bytes text.now paths.now (tree_in tree.old))) }
    ensures asked { IsAsked H.tells tree.old tree.new }
    ensures cause { IfErr result (IsCausedBy tree.old tree.new) }
{
    if let Some(path) = missing_path(tree, paths)? {
        return Err(BackupError::FileMissing {
            path: path.clone()?,
        });
    }
    let files = read_files(alloc, tree, paths)?;
    frame_within(alloc, text, &files)
}

/// The part of a change that writes the backup of an installed package: the frame of its entry's text and its own files.
///
/// `NotInstalled` where no entry has the name; then `FileMissing` at the least path of a file that is missing, `TooLarge` of `File` where a
/// file is too long, and of `Frame` where the frame is. `HostFault` comes only where the host's faults rose.
pub fn backup<H: Host>(alloc: Global, tree: &mut Tree<H>, name: &Name) -> Result<Part, BackupError>
    ensures part { Told H.tells (Answers (λ part. part) result (package_backup name.now tree.old.db (tree_in tree.old))) }
    ensures form { IfOk result (IsBackupPart name.now tree.old.db) }
    ensures named { IfOk result (λ part. backup_by part ≡ Some (installed (revision_at tree.old.db) name.now)) }
    ensures asked { IsAsked H.tells tree.old tree.new }
    ensures cause { IfErr result (IsCausedBy tree.old tree.new) }
{
    let Some(entry) = tree.db().get(name) else {
        return Err(BackupError::NotInstalled {
            name: name.clone()?,
        });
    };
    let text = write_object(alloc, entry)?;
    let paths = own_paths(alloc, entry)?;
    let path = backup_path(alloc, &entry.name, entry.revision)?;
    let bytes = Bytes::new(backup_bytes(alloc, tree, &text, &paths)?);
    Ok(Part::Write { path, bytes })
}
