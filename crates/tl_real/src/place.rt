// Where files stand.
use std::alloc::{AllocError, Global};
use std::io;
use std::io::ErrorKind;

const NO_FOLDER: &str = "a folder's path is UTF-8 and not empty";

/// The path that a call is at: the folder's, or that of a file or folder below it. It keeps its room from call to call.
#[derive(Drop)]
pub(crate) struct Place {
    // with a slash at its end; absent where the path is none
    folder: Option<String>,
    path: String,
}

impl Place {
    pub(crate) fn new(alloc: Global, folder: &[u8]) -> Result<Place, AllocError> {
        Ok(Place {
            folder: folder_path(alloc, folder)?,
            path: String::new(alloc),
        })
    }

    /// Goes to the name below the folder; to the folder itself at the empty name.
    pub(crate) fn go(&mut self, name: &str) -> io::Result<()> {
        self.path.clear();
        match &self.folder {
            Some(folder) => {
                self.path.push_str(folder.as_str())?;
                self.path.push_str(name)?;
                Ok(())
            }
            None => Err(io::Error::new(ErrorKind::InvalidFilename, NO_FOLDER)),
        }
    }

    /// Goes where no file is, and says so.
    pub(crate) fn go_out(&mut self, to: &str) -> io::Result<()> {
        self.path.clear();
        self.path.push_str(to)?;
        Ok(())
    }

    pub(crate) fn path(&self) -> &str {
        self.path.as_str()
    }
}

fn folder_path(alloc: Global, folder: &[u8]) -> Result<Option<String>, AllocError> {
    match str::from_utf8(folder) {
        Ok(text) if !text.is_empty() => {
            let mut path = String::from_str(alloc, text)?;
            if !text.ends_with('/') {
                path.push('/')?;
            }
            Ok(Some(path))
        }
        _ => Ok(None),
    }
}
