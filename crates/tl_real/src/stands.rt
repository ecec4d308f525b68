// What stands at a path.
use std::io::ErrorKind;
use std::rt::Files;
use std::{fs, io};

/// What is said of something that is no file, folder or link.
pub(crate) const NO_FILE: &str = "what stands there is no file";

/// What stands at a path: nothing that counts, a file or a link that leads to one, with its length, or a folder that
/// is no link.
#[derive(Clone, Copy)]
pub(crate) enum Stands {
    Nothing,
    File(u64),
    Folder,
}

// Whether the error says that nothing stands there.
pub(crate) fn is_absence(error: &io::Error) -> bool {
    matches!(
        error.kind(),
        ErrorKind::NotFound | ErrorKind::NotADirectory | ErrorKind::FilesystemLoop
    )
}

/// The length of the file at the path, also behind a link; `None` where no file is. It opens nothing.
pub(crate) fn file_len(rt: &impl Files, path: &str) -> io::Result<Option<u64>> {
    match fs::metadata(rt, path) {
        Ok(found) if found.is_file() => Ok(Some(found.len())),
        Ok(_) => Ok(None),
        Err(error) if is_absence(&error) => Ok(None),
        Err(error) => Err(error),
    }
}

/// What stands at the path. A link to a folder counts for nothing.
pub(crate) fn look(rt: &impl Files, path: &str) -> io::Result<Stands> {
    match fs::symlink_metadata(rt, path) {
        Ok(found) if found.is_file() => Ok(Stands::File(found.len())),
        Ok(found) if found.is_dir() => Ok(Stands::Folder),
        Ok(found) if found.is_symlink() => match file_len(rt, path)? {
            Some(len) => Ok(Stands::File(len)),
            None => Ok(Stands::Nothing),
        },
        Ok(_) => Ok(Stands::Nothing),
        Err(error) if is_absence(&error) => Ok(Stands::Nothing),
        Err(error) => Err(error),
    }
}
