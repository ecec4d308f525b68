// Whether a file can come at a name where none stands.
use crate::below::look_below;
use crate::place::Place;
use crate::stands::{NO_FILE, is_absence};
use std::alloc::Global;
use std::fs::Metadata;
use std::io::ErrorKind;
use std::rt::Files;
use std::{fs, io};

// A component of no more bytes is one that each file system can hold.
const SHORT_BYTES: usize = 128;

const NOT_LISTED: &str = "something below it is no file of a tree";

/// The error is why no file can come at the name. A folder that holds nothing but files of the tree and folders is no error, since
/// its files may go first; nor is a file in the place of a folder.
pub(crate) fn check_absent<R: Files>(
    rt: &R,
    alloc: Global,
    place: &mut Place,
    name: &str,
) -> io::Result<()> {
    check_components(rt, place, name)?;
    place.go(name)?;
    match stands_at(rt, place.path())? {
        Some(found) if found.is_dir() => check_folder(rt, alloc, place, name),
        Some(found) if found.is_file() || found.is_symlink() => Ok(()),
        Some(_) => Err(io::Error::new(ErrorKind::AlreadyExists, NO_FILE)),
        None => Ok(()),
    }
}

// Below a folder that isn't there the system doesn't look at a component, so it is asked of each by itself.
fn check_components<R: Files>(rt: &R, place: &mut Place, name: &str) -> io::Result<()> {
    for component in name.split('/') {
        if component.len() > SHORT_BYTES {
            place.go(component)?;
            match fs::symlink_metadata(rt, place.path()) {
                Err(error) if error.kind() == ErrorKind::InvalidFilename => return Err(error),
                _ => {}
            }
        }
    }
    Ok(())
}

fn check_folder<R: Files>(rt: &R, alloc: Global, place: &mut Place, name: &str) -> io::Result<()> {
    let has_other = look_below(rt, alloc, place, name)?.has_other;
    place.go(name)?;
    if has_other {
        Err(io::Error::new(ErrorKind::DirectoryNotEmpty, NOT_LISTED))
    } else {
        Ok(())
    }
}

/// The error is why no folder can come or stand at each place above the name.
pub(crate) fn check_way<R: Files>(rt: &R, place: &mut Place, name: &str) -> io::Result<()> {
    for (at, _) in name.match_indices('/') {
        if let Some((folder, _)) = name.split_at_checked(at) {
            place.go(folder)?;
            if !is_folder(rt, place.path())? {
                break;
            }
        }
    }
    Ok(())
}

// Whether a folder stands there, or a link to one; false also where nothing or a file does. What else stands there is an error.
fn is_folder<R: Files>(rt: &R, path: &str) -> io::Result<bool> {
    let found = match stands_at(rt, path)? {
        Some(found) if found.is_symlink() => fs::metadata(rt, path)?,
        Some(found) => found,
        None => return Ok(false),
    };
    if found.is_dir() || found.is_file() {
        Ok(found.is_dir())
    } else {
        Err(io::Error::new(ErrorKind::NotADirectory, NO_FILE))
    }
}

// What stands at the path, no link followed.
fn stands_at<R: Files>(rt: &R, path: &str) -> io::Result<Option<Metadata>> {
    match fs::symlink_metadata(rt, path) {
        Ok(found) => Ok(Some(found)),
        Err(error) if is_absence(&error) => Ok(None),
        Err(error) => Err(error),
    }
}
