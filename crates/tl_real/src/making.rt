// Files that are made anew.
ghost use Rattle.std.specs.Prelude.{◌≤◌, length, IfOk};

use crate::below::look_below;
use crate::names::JOURNAL;
use crate::place::Place;
use crate::stands::NO_FILE;
use std::alloc::Global;
use std::fs::{File, OpenOptions, Permissions};
use std::io::{ErrorKind, Write};
use std::os::unix::fs::{FileExt, MetadataExt, OpenOptionsExt, PermissionsExt};
use std::rt::Files;
use std::{fs, io};

const COPY_BYTES: usize = 16384;

const MODE: u32 = 0o666;

const EXECUTABLE_MODE: u32 = 0o777;

// Who may read, write and run a file.
const MODE_BITS: u32 = 0o777;

const IN_THE_WAY: &str = "a folder that isn't empty stands there";

/// Makes an empty file where nothing stands. Files below bin/ are programs.
pub(crate) fn make_new<R: Files<File = File>>(rt: &R, path: &str, name: &str) -> io::Result<File> {
    let mode = if name.starts_with("bin/") {
        EXECUTABLE_MODE
    } else {
        MODE
    };
    OpenOptions::new()
        .append(true)
        .create_new(true)
        .mode(mode)
        .open(rt, path)
}

/// Makes an empty file where something stands: a file, which hands its mode on, a link, which is let go, or a folder that holds no
/// file at any depth. The place is at the name.
pub(crate) fn replace<R: Files<File = File>>(
    rt: &R,
    alloc: Global,
    place: &mut Place,
    name: &str,
) -> io::Result<File> {
    let mode = clear_away(rt, alloc, place, name)?;
    place.go(name)?;
    let file = make_new(rt, place.path(), name)?;
    if let Some(mode) = mode {
        if !name.starts_with(JOURNAL) {
            let _ = file.set_permissions(Permissions::from_mode(mode));
        }
    }
    Ok(file)
}

// Gives the mode of what it removed, where that was a file.
fn clear_away<R: Files>(
    rt: &R,
    alloc: Global,
    place: &mut Place,
    name: &str,
) -> io::Result<Option<u32>> {
    let found = fs::symlink_metadata(rt, place.path())?;
    if found.is_dir() {
        remove_folders_below(rt, alloc, place, name)?;
        return Ok(None);
    }
    if !found.is_file() && !found.is_symlink() {
        return Err(io::Error::new(ErrorKind::AlreadyExists, NO_FILE));
    }
    fs::remove_file(rt, place.path())?;
    Ok(if found.is_file() {
        Some(found.mode() & MODE_BITS)
    } else {
        None
    })
}

// Removes a folder and the folders below it, where nothing else is there.
fn remove_folders_below<R: Files>(
    rt: &R,
    alloc: Global,
    place: &mut Place,
    name: &str,
) -> io::Result<()> {
    let below = look_below(rt, alloc, place, name)?;
    if below.has_file || below.has_other {
        return Err(io::Error::new(ErrorKind::IsADirectory, IN_THE_WAY));
    }
    for folder in below.folders.iter().rev() {
        place.go(folder.as_str())?;
        fs::remove_dir(rt, place.path())?;
    }
    Ok(())
}

/// Fills the buffer from a place in the file, as far as the file goes.
pub(crate) fn fill(file: &File, from: u64, into: &mut [u8]) -> io::Result<usize>
    ensures { IfOk result (λ count. count ≤ length into.new) }
{
    let mut done = 0;
    for _ in 0..u64::MAX {
        if done == into.len() {
            break;
        }
        let at = from.saturating_add(done as u64);
        if at > i64::MAX as u64 {
            break;
        }
        match file.read_at(&mut into[done..], at) {
            Ok(0) => break,
            Ok(count) => done += count,
            Err(error) if error.kind() == ErrorKind::Interrupted => {}
            Err(error) => return Err(error),
        }
    }
    Ok(done)
}

/// Adds what one file holds to another.
pub(crate) fn copy_all(from: &File, to: &File) -> io::Result<()> {
    let mut writer: &File = to;
    let mut buffer = [0u8; COPY_BYTES];
    let mut at = 0u64;
    for _ in 0..u64::MAX {
        let count = fill(from, at, &mut buffer)?;
        if count == 0 {
            break;
        }
        writer.write_all(&buffer[..count])?;
        at = at.saturating_add(count as u64);
    }
    Ok(())
}
