// A file that stays open from call to call.
use std::alloc::Global;
use std::fs::File;
use std::io;

/// The open file of a name, if there is one. It keeps the name's room.
#[derive(Drop)]
pub(crate) struct Kept {
    name: String,
    file: Option<File>,
}

impl Kept {
    pub(crate) fn new(alloc: Global) -> Kept {
        Kept {
            name: String::new(alloc),
            file: None,
        }
    }

    /// The file, where it is open under this name.
    pub(crate) fn file(&self, name: &str) -> Option<&File> {
        if self.name.as_str() == name {
            self.file.as_ref()
        } else {
            None
        }
    }

    /// Keeps this file open in place of the one before.
    pub(crate) fn keep(&mut self, name: &str, file: File) -> io::Result<()> {
        self.file = None;
        self.name.clear();
        self.name.push_str(name)?;
        self.file = Some(file);
        Ok(())
    }

    pub(crate) fn close(&mut self) {
        self.file = None;
    }
}
