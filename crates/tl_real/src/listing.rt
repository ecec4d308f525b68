// What a folder lists.
use crate::place::Place;
use crate::stands::is_absence;
use std::alloc::{AllocError, Global};
use std::io;
use std::io::Read;
use std::rt::Files;

const LIST_BYTES: usize = 16384;

/// The names in a folder, each behind the folder's own.
#[derive(Drop)]
pub(crate) struct Listing {
    pub(crate) names: Vec<String>,
    // whether a name was passed over, since it isn't UTF-8
    pub(crate) has_unnamed: bool,
}

/// The names in a folder, in no order; none where there is no such folder.
pub(crate) fn list<R: Files>(
    rt: &R,
    alloc: Global,
    place: &mut Place,
    folder: &str,
) -> io::Result<Listing> {
    place.go(folder)?;
    match rt.open_dir(place.path()) {
        Ok(dir) => read_names(alloc, dir, folder),
        Err(error) if is_absence(&error) => Ok(Listing {
            names: Vec::new(alloc),
            has_unnamed: false,
        }),
        Err(error) => Err(error),
    }
}

fn read_names<D: Read + Drop>(alloc: Global, dir: D, folder: &str) -> io::Result<Listing> {
    let mut dir = dir;
    let mut found = Listing {
        names: Vec::new(alloc),
        has_unnamed: false,
    };
    let mut buffer = [0u8; LIST_BYTES];
    for _ in 0..u64::MAX {
        let count = dir.read(&mut buffer)?;
        if count == 0 {
            break;
        }
        add_names(alloc, &buffer[..count], folder, &mut found)?;
    }
    Ok(found)
}

fn add_names(
    alloc: Global,
    listed: &[u8],
    folder: &str,
    found: &mut Listing,
) -> Result<(), AllocError> {
    for name in listed.split(|byte| *byte == 0) {
        match str::from_utf8(name) {
            Ok("" | "." | "..") => {}
            Ok(text) => found.names.push(joined(alloc, folder, text)?)?,
            Err(_) => found.has_unnamed = true,
        }
    }
    Ok(())
}

fn joined(alloc: Global, folder: &str, name: &str) -> Result<String, AllocError> {
    let mut path = String::with_capacity(alloc, folder.len().saturating_add(name.len()))?;
    path.push_str(folder)?;
    path.push_str(name)?;
    Ok(path)
}
