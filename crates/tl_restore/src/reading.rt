//! What a backup brings back: the entry and the files that its frame holds.
ghost use Rattle.std.specs.Prelude.{◌≡◌, ◌<◌, ◌^◌, length, map, true, IfOk, IfErr, OnErr};
ghost use Rattle.std.specs.Cmp.Lexicographic.{pointwise};
ghost use Rattle.std.specs.Str.{bytes_eq};
ghost use Rattle.tl_model.specs.Causes.{Rose};
ghost use Rattle.tl_model.specs.Seen.{Told};
ghost use Rattle.tl_model.specs.Volume.{at};
ghost use Rattle.tl_frame.specs.Scan.{frame_fault};
ghost use Rattle.tl_object.specs.Reading as reading;
ghost use Rattle.tl_backup.specs.Asked.{IsAsked, tree_in};
ghost use Rattle.tl_backup.specs.Files.{backup_path};
ghost use Rattle.tl_backup.specs.Frames.{own_paths};
ghost use Rattle.tl_restore.specs.Restored.{IsRestoreCause, Restores, bytes_in, entry_and_files, is_of, restored, restored_as, restored_from, unpacked_by};

use std::alloc::{AllocError, Global};
use tl_backup::backup_path;
use tl_file::{FileBytes, FileList};
use tl_frame::{Frame, FrameError, read_frame};
use tl_host::Host;
use tl_kind::What;
use tl_object::{Object, ObjectError, read_object};
use tl_path::{Name, Path};
use tl_tree::{ContentsError, Tree};

/// Why a backup brings nothing back.
#[derive(Debug, Drop)]
pub(crate) enum RestoreError {
    /// There is no such backup.
    NoBackup,
    /// The frame passes this limit.
    TooLarge {
        what: What,
        limit: u64,
    },
    /// It is no frame.
    BadFrame {
        /// The place of the first field that is cut or wrong.
        at: u64,
    },
    /// The frame's entry doesn't read, is another one, or has other files.
    FrameEntry,
    /// A call of the host failed.
    HostFault,
    /// Memory ran out.
    NoMemory,
}

impl From<AllocError> for RestoreError {
    ghost use Rattle.std.specs.Prelude.{◌≡◌};
    ghost use Rattle.tl_restore.specs.declared.reading.RestoreError.TheVariants.{NoMemory};

    ghost from_gives = { λ _ e. e ≡ NoMemory };

    fn from(_error: AllocError) -> RestoreError {
        RestoreError::NoMemory
    }
}

/// An entry that a backup brings back, with its files.
#[derive(Drop)]
pub(crate) struct Restored {
    pub entry: Object,
    pub files: FileList,
}

// The bytes of a file, within the limit of a frame.
fn read_bytes<H: Host>(
    alloc: Global,
    tree: &mut Tree<H>,
    path: &Path,
) -> Result<Vec<u8>, RestoreError>
    ensures bytes { Told H.tells (Restores (λ bytes. bytes.items) result (bytes_in (at (tree_in tree.old) path.now))) }
    ensures asked { IsAsked H.tells tree.old tree.new }
    ensures cause { IfErr result (IsRestoreCause tree.old tree.new) }
{
    match tree.contents(alloc, path.view(), What::Frame) {
        Ok(Some(bytes)) => Ok(bytes),
        Ok(None) => Err(RestoreError::NoBackup),
        Err(ContentsError::TooLarge { what, limit }) => {
            Err(RestoreError::TooLarge { what, limit })
        }
        Err(ContentsError::HostFault) => Err(RestoreError::HostFault),
        Err(ContentsError::NoMemory) => Err(RestoreError::NoMemory),
    }
}

// What the bytes of a frame hold.
fn unpacked(alloc: Global, bytes: &[u8]) -> Result<Frame, RestoreError>
    ensures frame { Restores (λ frame. (frame.entry, frame.files)) result (unpacked_by (frame_fault bytes.now) bytes.now) }
    ensures fits { IfOk result (λ frame. length frame.entry < 2 ^ 32) }
    ensures quiet { IfErr result (λ e. e ≡ RestoreError.HostFault → ⊥) }
{
    match read_frame(alloc, bytes) {
        Ok(frame) => Ok(frame),
        Err(FrameError::BadFrame { at }) => Err(RestoreError::BadFrame { at }),
        Err(FrameError::NoMemory) => Err(RestoreError::NoMemory),
    }
}

// The paths of an entry's files that aren't reserved, in the order of their bytes.
fn own_paths(alloc: Global, entry: &Object) -> Result<Vec<Path>, AllocError>
    ensures { IfOk result (λ paths. paths.items ≡ own_paths entry.now) }
{
    let mut paths = entry.file_paths(alloc)?;
    paths.retain(|path| !path.is_reserved());
    Ok(paths)
}

// Whether files stand at these paths, in this order.
fn has_paths(files: &[FileBytes], paths: &[Path]) -> bool
    ensures { result ≡ pointwise bytes_eq (map (λ file. file.path) files.now) paths.now }
{
    if files.len() != paths.len() {
        return false;
    }
    for (place, path) in paths.iter().enumerate() {
        if files[place].path != *path {
            return false;
        }
    }
    true
}

// Whether an entry is a package's at a revision, and files are its own.
fn is_of(
    alloc: Global,
    entry: &Object,
    files: &[FileBytes],
    name: &Name,
    revision: u32,
) -> Result<bool, AllocError>
    ensures { IfOk result (λ is. is ≡ is_of name.now revision files.now entry.now) }
{
    if entry.name != *name || entry.revision != revision {
        return Ok(false);
    }
    let paths = own_paths(alloc, entry)?;
    Ok(has_paths(files, &paths))
}

// What the parts of a frame bring back.
fn restored_from(
    alloc: Global,
    frame: Frame,
    name: &Name,
    revision: u32,
) -> Result<Restored, RestoreError>
    requires { length frame.entry < 2 ^ 32 }
    ensures restored { Restores entry_and_files result (restored_as name.now revision frame.files (reading.entry_of frame.entry)) }
    ensures form { IfOk result (λ back. is_of name.now revision back.files back.entry ≡ true) }
    ensures quiet { IfErr result (λ e. e ≡ RestoreError.HostFault → ⊥) }
{
    match read_object(alloc, frame.entry.as_slice()) {
        Ok(entry) => {
            if !is_of(alloc, &entry, frame.files.as_slice(), name, revision)? {
                return Err(RestoreError::FrameEntry);
            }
            Ok(Restored {
                entry,
                files: frame.files,
            })
        }
        Err(ObjectError::BadObject { .. }) => Err(RestoreError::FrameEntry),
        Err(ObjectError::NoMemory) => Err(RestoreError::NoMemory),
    }
}

// What bytes bring back.
fn restored_in(
    alloc: Global,
    bytes: &[u8],
    name: &Name,
    revision: u32,
) -> Result<Restored, RestoreError>
    ensures restored { Restores entry_and_files result (restored_from name.now revision (unpacked_by (frame_fault bytes.now) bytes.now)) }
    ensures form { IfOk result (λ back. is_of name.now revision back.files back.entry ≡ true) }
    ensures quiet { IfErr result (λ e. e ≡ RestoreError.HostFault → ⊥) }
{
    match unpacked(alloc, bytes) {
        Ok(frame) => restored_from(alloc, frame, name, revision),
        Err(fault) => Err(fault),
    }
}

/// The entry and the files that the backup of a package at a revision brings back.
///
/// `NoBackup` exactly where the file is absent; then `TooLarge` of `Frame`, `BadFrame`, and `FrameEntry` where the entry doesn't read, has
/// another name or revision, or its own paths aren't the files'. `HostFault` comes only where the host's faults rose.
pub(crate) fn read_backup<H: Host>(
    alloc: Global,
    tree: &mut Tree<H>,
    name: &Name,
    revision: u32,
) -> Result<Restored, RestoreError>
    ensures restored { Told H.tells (Restores entry_and_files result (restored name.now revision (tree_in tree.old))) }
    ensures form { IfOk result (λ back. is_of name.now revision back.files back.entry ≡ true) }
    ensures asked { IsAsked H.tells tree.old tree.new }
    ensures cause { IfErr result (IsRestoreCause tree.old tree.new) }
{
    let path = backup_path(alloc, name, revision)?;
    match read_bytes(alloc, tree, &path) {
        Ok(bytes) => restored_in(alloc, &bytes, name, revision),
        Err(fault) => Err(fault),
    }
}
